use shm_model::refusal::{self, Numbered};
use thiserror::Error;

/// Why a process ended before its input did.
#[derive(Clone, Copy, Debug, PartialEq, Eq, Error)]
pub enum ProcessFault {
    /// An allocation was refused.
    #[error("out of memory")]
    OutOfMemory,
    /// The reader answered an error.
    #[error("read fault")]
    ReadFault,
    /// The writer answered an error, or took nothing.
    #[error("write fault")]
    WriteFault,
    /// The journal couldn't be appended to, or not be made durable: its disk may be full. Of the steps that it lacks nothing was written.
    #[error("journal: write fault")]
    JournalFault,
    /// A line tells of a step of this site, at this clock, that it doesn't have: its journal is an older copy, or another's. Of what came
    /// with that line nothing was appended or written.
    #[error("journal: too old: this site made a step at clock {clock} that it lacks")]
    TooOld { clock: u64 },
}

impl Numbered for ProcessFault {
    ghost use Rattle.shm_journal.specs.Faults.{process_fault_number};

    ghost number_of = { process_fault_number };

    fn number(&self) -> u8 {
        match self {
            ProcessFault::OutOfMemory => refusal::OUT_OF_MEMORY,
            ProcessFault::ReadFault => refusal::READ_FAULT,
            ProcessFault::WriteFault | ProcessFault::JournalFault => refusal::WRITE_FAULT,
            ProcessFault::TooOld { .. } => refusal::LOGS,
        }
    }
}
