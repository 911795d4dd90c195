use shm_model::refusal::{self, Numbered};
use thiserror::Error;

/// Why a client gave no receipt.
#[derive(Clone, Copy, Debug, PartialEq, Eq, Error)]
pub enum ClientFault {
    /// Memory was refused.
    #[error("out of memory")]
    OutOfMemory,
    /// All tries have gone by, and the site still waits for the page; or the box under the lock is another site's, which no cluster has
    /// that `start` made.
    #[error("gave up")]
    GaveUp,
    /// The site's clock has no further stamp.
    #[error("clock end")]
    ClockEnd,
}

impl Numbered for ClientFault {
    ghost use Rattle.shm_sites.specs.Cluster.Faults.{client_fault_number};

    ghost number_of = { client_fault_number };

    fn number(&self) -> u8 {
        match self {
            ClientFault::OutOfMemory => refusal::OUT_OF_MEMORY,
            ClientFault::GaveUp => refusal::GAVE_UP,
            ClientFault::ClockEnd => refusal::CLOCK_END,
        }
    }
}
