use shm_model::refusal::{self, Numbered};
use thiserror::Error;

/// Why a box took no input.
#[derive(Clone, Copy, Debug, PartialEq, Eq, Error)]
pub enum BoxFault {
    /// The envelope can't be for this site.
    #[error("foreign envelope")]
    Foreign,
    /// There is no stamp above the box's clock, or above the sender's step.
    #[error("clock end")]
    ClockEnd,
    /// Memory was refused.
    #[error("out of memory")]
    OutOfMemory,
}

impl Numbered for BoxFault {
    ghost use Rattle.shm_logs.specs.Boxes.Box.{box_fault_number};

    ghost number_of = { box_fault_number };

    fn number(&self) -> u8 {
        match self {
            BoxFault::Foreign => refusal::FOREIGN,
            BoxFault::ClockEnd => refusal::CLOCK_END,
            BoxFault::OutOfMemory => refusal::OUT_OF_MEMORY,
        }
    }
}
