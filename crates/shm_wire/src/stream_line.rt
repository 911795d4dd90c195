use crate::block_write::WriteAsk;
use crate::caller_ask::Ask;
use crate::sent_envelope::Sent;
use crate::unmap_ask::UnmapAsk;
use std::alloc::{Allocator, Global};

/// A line of the stream, as a site reads it.
#[derive(Drop)]
pub enum Line<A: Allocator + Copy = Global> {
    /// An envelope from another site.
    Envelope(Sent<A>),
    /// A caller's ask.
    Ask(Ask),
    /// Bytes that a caller asks to be stored.
    Write(WriteAsk<A>),
    /// A mapping that a caller gives up, or whose bytes it brings.
    Unmap(UnmapAsk<A>),
}
