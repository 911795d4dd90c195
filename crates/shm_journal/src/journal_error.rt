use shm_model::refusal::{self, Numbered};
use thiserror::Error;

/// Why a journal leads to no log.
#[derive(Clone, Copy, Debug, PartialEq, Eq, Error)]
pub enum JournalFault {
    /// An allocation was refused.
    #[error("out of memory")]
    OutOfMemory,
    /// The reader answered an error, or the journal is longer than any file.
    #[error("read fault")]
    ReadFault,
    /// The line of this number, from 1, is none of a journal's, or longer than one may be, or records steps that can't be the site's next ones;
    /// or there is no first line.
    #[error("line {0}: bad line")]
    BadLine(u64),
    /// The journal ends within the state that it begins with.
    #[error("ends within a state")]
    UnendedState,
    /// The journal begins with a state, and what led there is asked for too.
    #[error("begins with a state; the files before it are missing")]
    BeginsWithState,
}

impl Numbered for JournalFault {
    ghost use Rattle.shm_journal.specs.Faults.{journal_fault_number};

    ghost number_of = { journal_fault_number };

    fn number(&self) -> u8 {
        match self {
            JournalFault::OutOfMemory => refusal::OUT_OF_MEMORY,
            JournalFault::ReadFault => refusal::READ_FAULT,
            JournalFault::BadLine(_) | JournalFault::UnendedState => refusal::BAD_LINE,
            JournalFault::BeginsWithState => refusal::LOGS,
        }
    }
}
