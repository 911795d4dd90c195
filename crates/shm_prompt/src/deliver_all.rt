//! `run`: the oldest envelope is delivered, again and again.
ghost use Rattle.std.specs.Prelude.{◌≡◌, true, IfOk, OnErr};
ghost use Rattle.shm_prompt.specs.Dialog.{Delivered, SomeDelivered};

use crate::script_line_act::happen;
use shm_debug::Session;
use shm_model::Event;
use shm_progress::oldest_from;
use std::alloc::{AllocError, Allocator};

/// Delivers the oldest envelope that is on its way, until none is, or at most so often. Answers whether none is.
pub(crate) fn deliver_all<A: Allocator + Copy>(
    session: &mut Session<A>,
    alloc: A,
    most: u32,
    out: &mut Vec<u8, A>,
) -> Result<bool, AllocError>
    ensures delivers { IfOk result (λ quiet. Delivered most session.old session.new out.old.items out.new.items quiet) }
    ensures halted { OnErr result (SomeDelivered most session.old session.new) }
{
    let mut from = 0;
    'deliveries: for _made in 0..most {
        let Some(number) = oldest_from(session.world(), from) else {
            return Ok(true);
        };
        happen(session, alloc, Event::Deliver(number), out)?;
        from = number + 1;
    }
    Ok(oldest_from(session.world(), from).is_none())
}
