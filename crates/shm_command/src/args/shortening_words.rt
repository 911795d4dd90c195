/// When the journal of a running site is made shorter, and what becomes of the whole one.
#[derive(Clone, Copy, Debug, PartialEq, Eq)]
pub struct Shortening {
    /// The bytes that it has at least then; 0: never.
    pub at: u64,
    /// Whether the whole one goes.
    pub forgets: bool,
}
