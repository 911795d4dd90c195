use thiserror::Error;

/// Why a batch gets no mark, or can't be looked at.
#[derive(Clone, Copy, Debug, PartialEq, Eq, Error)]
pub enum BatchFault {
    /// An allocation was refused.
    #[error("out of memory")]
    OutOfMemory,
    /// The reader answered an error.
    #[error("read fault")]
    ReadFault,
    /// The writer answered an error, or took nothing.
    #[error("write fault")]
    WriteFault,
    /// There are as many batches as there are numbers.
    #[error("the numbers of batches have ended")]
    NumberEnd,
}
