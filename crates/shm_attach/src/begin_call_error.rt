ghost use Rattle.shm_attach.specs.BeginFault.{begin_fault_number};

use shm_model::refusal::{self, Numbered};

/// Why a site begins no segment call.
#[derive(Clone, Copy, Debug, PartialEq, Eq)]
pub enum BeginFault {
    /// A call is outstanding: a site waits for one reply at a time.
    Busy,
    /// The greatest number was used.
    UsedUp,
}

impl Numbered for BeginFault {
    ghost number_of = { begin_fault_number };

    fn number(&self) -> u8 {
        match self {
            BeginFault::Busy => refusal::BUSY,
            BeginFault::UsedUp => refusal::NUMBERS_USED_UP,
        }
    }
}
