use crate::chain::Chain;

/// How far a journal's file is whole.
#[derive(Clone, Copy, Debug, PartialEq, Eq)]
pub struct Extent {
    /// Its whole batches.
    pub chain: Chain,
    /// How many bytes they take, with their marks.
    pub bytes: u64,
    /// Whether a mark behind them is whole by itself: then the file is damaged, or a crash left there what the disk had before.
    pub is_damaged: bool,
}
