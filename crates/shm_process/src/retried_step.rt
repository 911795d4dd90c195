use crate::step_output::Said;
use shm_model::Asked;
use shm_wire::Tag;
use std::alloc::{Allocator, Global};

/// A step of an ask that waited, as a node says it.
#[derive(Drop)]
pub struct Again<A: Allocator + Copy = Global> {
    pub said: Said<A>,
    /// The tag of the ask's caller.
    pub tag: Tag,
    /// The access that made the step: the ask's own, or a load or a store of one of a block's bytes.
    pub asked: Asked,
}
