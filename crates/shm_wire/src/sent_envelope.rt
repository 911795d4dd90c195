//! An envelope on the stream, and where it was sent.
use shm_parts::Envelope;
use std::alloc::{Allocator, Global};

/// Where an envelope was sent.
#[derive(Clone, Copy, Debug, PartialEq, Eq)]
pub struct Source {
    /// The sender's clock at the step that sent it.
    pub clock: u64,
    /// That step's index in the sender's log.
    pub index: u64,
    /// The envelope's place among those that the step sent.
    pub place: u64,
}

/// An envelope as the stream has it: with where it was sent.
#[derive(Drop)]
pub struct Sent<A: Allocator + Copy = Global> {
    pub source: Source,
    pub envelope: Envelope<A>,
}

/// The same of an envelope that stays where it is: whoever sends it prints this.
#[derive(Clone, Copy)]
pub struct SentLine<'a, A: Allocator + Copy = Global> {
    pub source: Source,
    pub envelope: &'a Envelope<A>,
}
