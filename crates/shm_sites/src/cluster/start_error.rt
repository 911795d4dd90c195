use shm_model::refusal::{self, Numbered};
use thiserror::Error;

/// Why no cluster was started. The threads that were started have ended, except those that couldn't be told to for lack of memory: they end
/// with the program.
#[derive(Clone, Copy, Debug, PartialEq, Eq, Error)]
pub enum StartFault {
    /// Memory was refused.
    #[error("out of memory")]
    OutOfMemory,
    /// The system gave no thread.
    #[error("no thread")]
    NoThread,
}

impl Numbered for StartFault {
    ghost use Rattle.shm_sites.specs.Cluster.Faults.{start_fault_number};

    ghost number_of = { start_fault_number };

    fn number(&self) -> u8 {
        match self {
            StartFault::OutOfMemory => refusal::OUT_OF_MEMORY,
            StartFault::NoThread => refusal::NO_THREAD,
        }
    }
}
