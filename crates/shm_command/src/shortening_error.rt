use crate::site_error::SiteFault;
use thiserror::Error;

/// Why a journal isn't made shorter. But for `Unlisted` and `WriteFault`, the file of its name is the whole journal, as before.
#[derive(Clone, Copy, Debug, PartialEq, Eq, Error)]
pub enum ShorteningFault {
    /// An allocation was refused.
    #[error("out of memory")]
    OutOfMemory,
    /// The journal can't be read, or is none.
    #[error("{0}")]
    Unread(SiteFault),
    /// The state of its site can't be told.
    #[error("journal: the state of its site can't be told")]
    Untold,
    /// The new journal couldn't be written, or not be made durable.
    #[error("journal: the new one can't be written")]
    Unwritten,
    /// The whole journal couldn't be kept under another name.
    #[error("journal: it can't be kept under another name")]
    Unkept,
    /// The new journal couldn't take the name. The whole one has another too.
    #[error("journal: the new one can't take its name")]
    Unnamed,
    /// It is shorter, but its folder couldn't be made durable: a crash may bring back the whole one.
    #[error("journal: its folder can't be made durable")]
    Unlisted,
    /// It is shorter, but that couldn't be told.
    #[error("write fault")]
    WriteFault,
}
