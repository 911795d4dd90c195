use shm_wire::Line;
use std::alloc::{Allocator, Global};

/// The cause of a step.
#[derive(Drop)]
pub enum Cause<A: Allocator + Copy = Global> {
    Line(Line<A>),
    /// The site's restart. It is recorded as `restart`.
    Restart,
}
