//! The envelopes that were sent and aren't gone.
ghost use Rattle.std.specs.Prelude.{◌≡◌, ◌++◌, OnOk, string_bytes};
ghost use Rattle.shm_model.specs.World as model;
ghost use Rattle.shm_parts.specs.Message.{envelope_of};
ghost use Rattle.shm_world.specs.World.{StandsFor};
ghost use Rattle.shm_debug.specs.Sent.{envelope_text, live_text, sent_text};

use shm_parts::Envelope;
use shm_text::{message_name, push_number};
use shm_world::World;
use std::alloc::{AllocError, Allocator};

/// Tells each envelope from this number on.
pub(crate) fn tell_sent<A: Allocator + Copy>(
    out: &mut String<A>,
    world: &World<A>,
    first: u64,
) -> Result<(), AllocError>
    ensures { (w : model.World) → StandsFor world.now w → OnOk result (string_bytes out.new ≡ string_bytes out.old ++ sent_text w first) }
{
    'numbers: for number in first..world.sent() {
        tell_live(out, world, number)?;
    }
    Ok(())
}

/// Tells the envelope of this number, if it isn't gone.
fn tell_live<A: Allocator + Copy>(
    out: &mut String<A>,
    world: &World<A>,
    number: u64,
) -> Result<(), AllocError>
    ensures { (w : model.World) → StandsFor world.now w → OnOk result (string_bytes out.new ≡ string_bytes out.old ++ live_text number (model.live w number)) }
{
    match world.envelope(number) {
        Some(envelope) => tell_envelope(out, number, envelope),
        None => Ok(()),
    }
}

fn tell_envelope<A: Allocator + Copy>(
    out: &mut String<A>,
    number: u64,
    envelope: &Envelope<A>,
) -> Result<(), AllocError>
    ensures { OnOk result (string_bytes out.new ≡ string_bytes out.old ++ envelope_text number (envelope_of envelope.now)) }
{
    let site = envelope.to.0 as u64;
    let name = message_name(&envelope.message);
    out.push_str(" m")?;
    push_number(out, number)?;
    out.push_str(">")?;
    push_number(out, site)?;
    out.push_str(":")?;
    out.push_str(name)
}
