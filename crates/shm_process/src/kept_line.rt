use shm_place::PageId;
use std::alloc::{Allocator, Global};

/// A line that is kept back until a page is given up, or a right is there.
#[derive(Drop)]
pub(crate) struct KeptLine<A: Allocator + Copy = Global> {
    pub(crate) line: Vec<u8, A>,
    /// The page that is to be given up before, where it is an envelope.
    pub(crate) page: Option<PageId>,
}
