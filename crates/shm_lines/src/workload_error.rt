use shm_model::refusal::{self, Numbered};
use thiserror::Error;

/// Why there is no workload. Lines count from 1.
#[derive(Clone, Copy, Debug, PartialEq, Eq, Error)]
pub enum WorkloadFault {
    #[error("out of memory")]
    OutOfMemory,
    /// The line isn't allowed there, or the last one has no line feed.
    #[error("line {0}: bad line")]
    BadLine(u64),
    /// The line has more than 200 bytes.
    #[error("line {0}: too long")]
    LineTooLong(u64),
    /// There are bytes after line 10,000.
    #[error("too many lines")]
    TooManyLines,
}

impl Numbered for WorkloadFault {
    ghost use Rattle.shm_lines.specs.WorkloadFaults.{workload_fault_number};

    ghost number_of = { workload_fault_number };

    fn number(&self) -> u8 {
        match self {
            WorkloadFault::OutOfMemory => refusal::OUT_OF_MEMORY,
            WorkloadFault::BadLine(_) => refusal::BAD_LINE,
            WorkloadFault::LineTooLong(_) => refusal::LINE_TOO_LONG,
            WorkloadFault::TooManyLines => refusal::TOO_MANY_LINES,
        }
    }
}
