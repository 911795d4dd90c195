//! The event that sent each envelope.
ghost use Rattle.std.specs.Prelude.{◌≡◌, ◌-◌, ◌++◌, length, replicate, OnOk};

use std::alloc::{AllocError, Allocator};

/// All envelopes up to `sent` that have no origin yet were sent by the event of this number.
pub(crate) fn note_origins<A: Allocator + Copy>(
    origins: &mut Vec<u64, A>,
    sent: u64,
    number: u64,
) -> Result<(), AllocError>
    ensures { OnOk result (origins.new.items ≡ origins.old.items ++ replicate (sent - length origins.old.items) number) }
{
    let first = origins.len() as u64;
    'envelopes: for _envelope in first..sent {
        origins.push(number)?;
    }
    Ok(())
}
