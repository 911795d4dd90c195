use shm_model::refusal::{self, Numbered};
use thiserror::Error;

/// Why a session didn't go back.
#[derive(Clone, Copy, Debug, PartialEq, Eq, Error)]
pub enum BackFault {
    /// An allocation was refused.
    #[error("out of memory")]
    OutOfMemory,
    /// Fewer events stand than were to be taken back.
    #[error("past the beginning")]
    PastBeginning,
}

impl Numbered for BackFault {
    ghost use Rattle.shm_debug.specs.BackFaults.{back_fault_number};

    ghost number_of = { back_fault_number };

    fn number(&self) -> u8 {
        match self {
            BackFault::OutOfMemory => refusal::OUT_OF_MEMORY,
            BackFault::PastBeginning => refusal::PAST_BEGINNING,
        }
    }
}
