use thiserror::Error;

/// Why a file gives no script.
#[derive(Clone, Copy, Debug, PartialEq, Eq, Error)]
pub enum ReadRefusal {
    /// An allocation was refused.
    #[error("out of memory")]
    OutOfMemory,
    /// It has more bytes than 100,000 lines of 200 bytes.
    #[error("longer than any script")]
    TooLong,
    /// It couldn't be opened, or not be read to its end.
    #[error("it can't be read")]
    Unread,
}
