use shm_parts::Envelope;
use std::alloc::{Allocator, Global};

/// Why a site made no step.
#[derive(Clone, Copy, Debug, PartialEq, Eq)]
pub enum StepFault {
    /// The envelope can't be for this site.
    Foreign,
    /// Memory was refused.
    OutOfMemory,
}

/// A step that wasn't made. Site and outbox are as before, and an envelope that was handed in comes back.
#[derive(Drop)]
pub struct StepError<A: Allocator + Copy = Global> {
    pub fault: StepFault,
    pub envelope: Option<Envelope<A>>,
}
