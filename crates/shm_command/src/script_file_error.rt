use thiserror::Error;

/// Why a file gives no script.
#[derive(Clone, Copy, Debug, PartialEq, Eq, Error)]
pub enum ScriptFileFault {
    /// An allocation was refused.
    #[error("out of memory")]
    OutOfMemory,
    /// There is nothing of this name.
    #[error("there is no such file")]
    Missing,
    /// The name is a folder's.
    #[error("it is a folder")]
    Folder,
    /// The file couldn't be opened.
    #[error("it can't be opened")]
    Unopened,
    /// Reading failed.
    #[error("it can't be read")]
    Unread,
}
