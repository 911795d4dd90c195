use shm_journal::{OpeningFault, ProcessFault, RecoveryFault};
use thiserror::Error;

/// Why a site's process ended before its input did.
#[derive(Clone, Copy, Debug, PartialEq, Eq, Error)]
pub enum SiteFault {
    /// An allocation was refused before it began.
    #[error("out of memory")]
    OutOfMemory,
    /// The journal's file couldn't be opened, made or locked.
    #[error("journal: it can't be opened")]
    Unopened,
    /// There is no file of the journal's name, and none was to be begun.
    #[error("journal: there is none of this name: --new begins one")]
    Missing,
    /// The journal's name is that of a folder, a pipe, a socket or a device.
    #[error("journal: it is no plain file")]
    NoFile,
    /// The journal was to be begun, and is already.
    #[error("journal: it is begun already: start the site without --new")]
    Existing,
    /// The journal was to be gone on with, and has no whole batch.
    #[error("journal: nothing is begun in it: --new begins it")]
    Blank,
    /// A whole batch stands behind a broken one: durable bytes of the journal have changed. The first so many bytes are whole.
    #[error("journal: damaged behind its first {0} bytes: a whole batch stands behind a broken one")]
    Damaged(u64),
    /// The journal has lines, and no mark behind them: an earlier version kept it.
    #[error("journal: its batches have no marks: an earlier version kept it")]
    Unmarked,
    /// Another process has the journal.
    #[error("journal: another process has it")]
    Taken,
    /// What was never durable couldn't be cut off the journal, or what stands before it not be made durable.
    #[error("journal: it can't be made durable")]
    Uncut,
    /// The folder of a new journal couldn't be made durable.
    #[error("journal: its folder can't be made durable")]
    Unlisted,
    /// The journal can't be this site's, or memory or reading failed.
    #[error("{0}")]
    Unrecovered(RecoveryFault),
    /// The site can't go on from its journal.
    #[error("{0}")]
    Unopenable(OpeningFault),
    /// Memory, reading or writing failed while it ran, or its journal is too old. Where the journal failed, what wasn't durable was cut off it.
    #[error("{0}")]
    Ended(ProcessFault),
    /// The journal failed, and then what isn't durable couldn't be cut off either. What stands behind this many bytes may be read, and be
    /// lost later.
    #[error("journal: write fault: cut it to its first {0} bytes before the site starts again")]
    Loose(u64),
}
