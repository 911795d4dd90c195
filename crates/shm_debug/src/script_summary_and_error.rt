use shm_model::refusal::{self, Numbered};
use thiserror::Error;

/// The summary of a whole script.
#[derive(Clone, Copy, Debug, PartialEq, Eq)]
pub struct Summary {
    /// All lines, the first one too.
    pub lines: u64,
    /// The event lines that stand at the end, refused ones too, without those that were taken back.
    pub events: u64,
    /// The envelopes that were sent in the run of these events.
    pub sent: u64,
}

/// Why a script was not replayed to its end. A line is given by its number, from 1.
#[derive(Clone, Copy, Debug, PartialEq, Eq, Error)]
pub enum DebugFault {
    /// An allocation was refused.
    #[error("out of memory")]
    OutOfMemory,
    /// It isn't a line of a script, or isn't allowed there, or has no line feed.
    #[error("line {0}: bad line")]
    BadLine(u64),
    /// The line has more than 200 bytes before its line feed.
    #[error("line {0}: too long")]
    LineTooLong(u64),
    /// Something follows line 100,000.
    #[error("too many lines")]
    TooManyLines,
    /// The reader answered an error.
    #[error("read fault")]
    ReadFault,
    /// The writer answered an error, or took nothing.
    #[error("write fault")]
    WriteFault,
}

impl Numbered for DebugFault {
    ghost use Rattle.shm_debug.specs.Faults.{debug_fault_number};

    ghost number_of = { debug_fault_number };

    fn number(&self) -> u8 {
        match self {
            DebugFault::OutOfMemory => refusal::OUT_OF_MEMORY,
            DebugFault::BadLine(_) => refusal::BAD_LINE,
            DebugFault::LineTooLong(_) => refusal::LINE_TOO_LONG,
            DebugFault::TooManyLines => refusal::TOO_MANY_LINES,
            DebugFault::ReadFault => refusal::READ_FAULT,
            DebugFault::WriteFault => refusal::WRITE_FAULT,
        }
    }
}
