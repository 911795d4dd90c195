use thiserror::Error;

/// Why a site isn't recovered from its journal.
#[derive(Clone, Copy, Debug, PartialEq, Eq, Error)]
pub enum RecoveryFault {
    /// An allocation was refused.
    #[error("out of memory")]
    OutOfMemory,
    /// The reader answered an error, or the journal is longer than any file.
    #[error("read fault")]
    ReadFault,
    /// Its header is that of another site, of another number of sites, or of another opening.
    #[error("journal: of another site, number of sites, opening or cluster")]
    Foreign,
    /// The line of this number, from 1, is none of a journal's, or records steps that can't be the site's next ones.
    #[error("journal: line {0}: no entry of this site")]
    BadLine(u64),
    /// It ends within the state that it begins with.
    #[error("journal: ends within a state")]
    UnendedState,
}
