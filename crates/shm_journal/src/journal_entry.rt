use shm_process::Cause;
use std::alloc::{Allocator, Global};

/// Steps that are recorded, one after another.
#[derive(Drop)]
pub struct Entry<A: Allocator + Copy = Global> {
    /// The clock of the first step.
    pub clock: u64,
    pub cause: Cause<A>,
}
