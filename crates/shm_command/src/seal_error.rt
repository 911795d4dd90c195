use crate::script_file_error::ScriptFileFault;
use thiserror::Error;

/// Why there is no seal as the words say.
#[derive(Clone, Copy, Debug, PartialEq, Eq, Error)]
pub enum SealFault {
    /// The cluster's name can't be one.
    #[error("cluster: a name has 1 to 32 bytes of printable ASCII, and no blank")]
    BadName,
    /// There is a key, and no cluster's name.
    #[error("key: it needs a cluster's name: --cluster NAME")]
    NoName,
    /// The key's file is empty.
    #[error("key: its file is empty")]
    NoKey,
    /// The key's file couldn't be read.
    #[error("key: {0}")]
    Unread(ScriptFileFault),
}
