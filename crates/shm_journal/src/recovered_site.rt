use shm_process::Node;
use std::alloc::{Allocator, Global};

/// A site recovered from its journal.
#[derive(Drop)]
pub struct Recovered<A: Allocator + Copy = Global> {
    /// The site after the steps that are recorded.
    pub node: Node<A>,
    /// The length of the whole lines in bytes, with their line feeds. What stands behind them is torn, and counts for nothing.
    pub whole: u64,
    /// Whether there is no whole line yet, so that the header has still to be written.
    pub is_new: bool,
}
