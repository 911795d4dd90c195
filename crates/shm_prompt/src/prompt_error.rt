use shm_model::refusal::{self, Numbered};
use thiserror::Error;

/// Why a dialog ended before its input did.
#[derive(Clone, Copy, Debug, PartialEq, Eq, Error)]
pub enum PromptFault {
    /// An allocation was refused.
    #[error("out of memory")]
    OutOfMemory,
    /// The reader answered an error.
    #[error("read fault")]
    ReadFault,
    /// The writer answered an error, or took nothing.
    #[error("write fault")]
    WriteFault,
}

impl Numbered for PromptFault {
    ghost use Rattle.shm_prompt.specs.Faults.{prompt_fault_number};

    ghost number_of = { prompt_fault_number };

    fn number(&self) -> u8 {
        match self {
            PromptFault::OutOfMemory => refusal::OUT_OF_MEMORY,
            PromptFault::ReadFault => refusal::READ_FAULT,
            PromptFault::WriteFault => refusal::WRITE_FAULT,
        }
    }
}
