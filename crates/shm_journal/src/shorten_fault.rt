use thiserror::Error;

/// Why a site's journal isn't shortened.
#[derive(Clone, Copy, Debug, PartialEq, Eq, Error)]
pub enum ShortenFault {
    /// An allocation was refused.
    #[error("out of memory")]
    OutOfMemory,
    /// The site may hold only so many copies, of which a state doesn't tell.
    #[error("journal: the site's copies are limited")]
    Limited,
    /// A part of the site's state has no line or can't be told again, or the header isn't the site's.
    #[error("journal: the site's state can't be told")]
    Untold,
}
