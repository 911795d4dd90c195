//! The ways of envelopes.
ghost use Rattle.std.specs.Prelude.{◌≡◌, slice_index};
ghost use Rattle.shm_parts.specs.Message.{envelope_of};
ghost use Rattle.shm_draw.specs.Picture;

use crate::mark_kinds::Way;
use crate::message_label::word_of;
use shm_parts::Envelope;
use std::alloc::Allocator;

/// The way of the envelope of this number. `origins` has the event that sent each envelope.
pub(crate) fn way_of<A: Allocator + Copy>(
    envelope: &Envelope<A>,
    origins: &[u64],
    number: u64,
) -> Way
    ensures { result ≡ Picture.way origins.now number (envelope_of envelope.now) }
{
    Way {
        number,
        origin: origin_of(origins, number),
        from: envelope.from,
        to: envelope.to,
        word: word_of(&envelope.message),
    }
}

/// The event that sent the envelope of this number; 0 where there is none.
fn origin_of(origins: &[u64], number: u64) -> u64
    ensures { result ≡ slice_index origins.now number }
{
    let index = number as usize;
    if index < origins.len() {
        return origins[index];
    }
    0
}
