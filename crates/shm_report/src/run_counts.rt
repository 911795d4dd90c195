/// How much was done in a run.
#[derive(Clone, Copy, Debug, PartialEq, Eq)]
pub struct Counts {
    /// The steps of all sites.
    pub steps: u64,
    /// The loads and stores that had to wait for their page.
    pub faults: u64,
    /// The envelopes that were sent.
    pub envelopes: u64,
    /// Those of them that no site received: the network lost them, or the run ended before they arrived.
    pub losses: u64,
    /// The receipts beyond the first of each envelope.
    pub repeats: u64,
}
