use crate::cluster::posted_envelope::Posted;
use std::alloc::{Allocator, Global};

/// A message in a site's channel.
#[derive(Drop)]
pub(crate) enum Mail<A: Allocator + Copy = Global> {
    Envelope(Posted<A>),
    Tick,
    /// The thread is to end.
    Stop,
}
