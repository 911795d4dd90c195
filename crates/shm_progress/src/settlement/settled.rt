/// How far a world was brought.
#[derive(Clone, Copy, Debug, PartialEq, Eq)]
pub struct Settled {
    /// Whether nothing is on its way.
    pub at_rest: bool,
    /// How many envelopes were handed over.
    pub deliveries: u64,
}
