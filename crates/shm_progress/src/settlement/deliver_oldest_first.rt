//! Hands over what is on its way, the oldest first.
ghost use Rattle.std.specs.Prelude.{◌≡◌, ℕ, ◌+◌, ◌^◌, ◌<◌, ◌≤◌, ◌↔◌, false, List, IfNone, IfOk, IfSome, IsTrue, OnErr};
ghost use Rattle.shm_model.specs.World as model;
ghost use Rattle.shm_model.specs.declared.event.Event.{Event};
ghost use Rattle.shm_progress.specs.Deliveries.{IsAtRest, deliveries_left};
ghost use Rattle.shm_progress.specs.Rest.Deliveries.{FirstFrom, HandedOver, HandedSome, NoneFrom};
ghost use Rattle.shm_world.specs.World.{StandsFor};

use crate::settlement::Settled;
use shm_world::{Event, World};
use std::alloc::{AllocError, Allocator};

/// The oldest envelope that is on its way, of those from number `from` on.
pub fn oldest_from<A: Allocator + Copy>(world: &World<A>, from: u64) -> Option<u64>
    ensures found { (w : model.World) → StandsFor world.now w → IfSome result (λ number. FirstFrom w from number) }
    ensures none { (w : model.World) → StandsFor world.now w → IfNone result (NoneFrom w from) }
    ensures below { IfSome result (λ number. number + 1 < 2 ^ 64) }
{
    'numbers: for number in from..world.sent() {
        if world.envelope(number).is_some() {
            return Some(number);
        }
    }
    None
}

/// Hands over what is on its way, and what that causes, the oldest first, until nothing is on its way or `budget` envelopes were handed
/// over. Where memory is refused it stops after the deliveries that were made.
///
/// It needs at most `deliveries_left` deliveries, which is at most 114 for each envelope ever sent.
pub fn deliver_all<A: Allocator + Copy>(
    world: &mut World<A>,
    budget: u64,
) -> Result<Settled, AllocError>
    ensures made { (w : model.World) → StandsFor world.old w → IfOk result (λ settled. HandedOver world.new w settled.deliveries) }
    ensures within { IfOk result (λ settled. settled.deliveries ≤ budget) }
    ensures rest { (w u : model.World) → StandsFor world.old w → StandsFor world.new u → IfOk result (λ settled. IsTrue settled.at_rest ↔ IsAtRest u) }
    ensures spent { IfOk result (λ settled. settled.at_rest ≡ false → settled.deliveries ≡ budget) }
    ensures enough { (o : model.Opening) (before : List Event) → StandsFor world.old (model.run o before).world
        → deliveries_left (model.run o before).world ≤ budget → IfOk result (λ settled. IsTrue settled.at_rest) }
    ensures part { (w : model.World) → StandsFor world.old w → OnErr result (HandedSome world.new w budget) }
{
    let mut from = 0;
    'deliveries: for deliveries in 0..budget {
        let Some(number) = oldest_from(world, from) else {
            return Ok(Settled {
                at_rest: true,
                deliveries,
            });
        };
        world.step(Event::Deliver(number))?;
        from = number + 1;
    }
    Ok(Settled {
        at_rest: oldest_from(world, from).is_none(),
        deliveries: budget,
    })
}
