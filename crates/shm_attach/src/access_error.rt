ghost use Rattle.shm_attach.specs.Right.{denied_number};

use shm_model::refusal::{self, Numbered};

/// Why a load or store reaches no place.
#[derive(Clone, Copy, Debug, PartialEq, Eq)]
pub enum Denied {
    /// Nothing is attached at this number.
    NoAttachment,
    /// A store through an attachment that is only to read (`shmat(2)`, `SHM_RDONLY`).
    ReadOnly,
    /// The segment's pages don't have the offset.
    OutOfSegment,
}

impl Numbered for Denied {
    ghost number_of = { denied_number };

    fn number(&self) -> u8 {
        match self {
            Denied::NoAttachment => refusal::NO_ATTACHMENT,
            Denied::ReadOnly => refusal::READ_ONLY,
            Denied::OutOfSegment => refusal::OUT_OF_SEGMENT,
        }
    }
}
