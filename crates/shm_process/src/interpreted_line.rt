use shm_model::Asked;
use shm_site::Input;
use shm_wire::{Mapping, Tag};
use std::alloc::{Allocator, Global};

/// The input that a line brings to a site.
#[derive(Drop)]
pub(crate) struct Heard<A: Allocator + Copy = Global> {
    pub(crate) input: Input<A>,
    /// The clock of the step that sent an envelope; 0 for what a caller asks.
    pub(crate) source: u64,
    /// The tag of the caller who asks.
    pub(crate) tag: Option<Tag>,
    /// The access, if it is one that waits for its right.
    pub(crate) waits: Option<Asked>,
    /// What is mapped after the step, where that changes.
    pub(crate) mapped: Option<Vec<Mapping, A>>,
}
