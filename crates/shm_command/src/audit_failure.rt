use shm_audit::{JournalFault, JournalsFault};

/// Why journals weren't accepted. They are numbered from 0, in their order.
#[derive(Clone, Copy, Debug, PartialEq, Eq)]
pub enum Unaudited {
    /// An allocation was refused.
    OutOfMemory,
    /// The output couldn't be written.
    WriteFault,
    /// This journal's file couldn't be opened.
    Unopened { at: usize },
    /// Memory or reading failed at this journal, or it is none.
    Unread { at: usize, fault: JournalFault },
    /// A whole batch stands behind a broken one in this journal. Its first so many bytes are whole.
    Damaged { at: usize, bytes: u64 },
    /// This journal has lines, and no mark behind them: an earlier version kept it.
    Unmarked { at: usize },
    /// The state with which this journal begins, or one of the files before it, is none to which the file before that leads.
    OtherState { at: usize },
    /// This journal is of another cluster than the first.
    OtherCluster { at: usize },
    /// They aren't those of one set of sites, or an audit found a cause.
    Unaccepted(JournalsFault),
}
