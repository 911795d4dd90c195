use shm_world::World;
use std::alloc::{Allocator, Global};

/// A world as it was after this many of the standing events.
#[derive(Drop)]
pub struct Checkpoint<A: Allocator + Copy = Global> {
    pub(crate) count: u64,
    pub(crate) world: World<A>,
    /// A short run may take it, and leaves another in its place: so it moves on with the session.
    pub(crate) moves: bool,
}
