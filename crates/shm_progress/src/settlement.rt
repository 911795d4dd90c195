//! A world of the code is brought to rest: each site ticks once, and then the oldest envelope is handed over, until none is on its way or
//! the budget of deliveries is used up. This settles what rounds settle.
ghost use Rattle.std.specs.Prelude.{◌≡◌, ℕ, ◌≤◌, ◌↔◌, ◌++◌, false, List, IfOk, IsTrue, OnErr, OnOk};
ghost use Rattle.shm_model.specs.World as model;
ghost use Rattle.shm_model.specs.declared.event.Event.{Event};
ghost use Rattle.shm_progress.specs.Deliveries.{IsAtRest, deliveries_left};
ghost use Rattle.shm_progress.specs.Rest.Deliveries.{HandedOver};
ghost use Rattle.shm_progress.specs.Rest.Rounds.{IsRound, ServesAll, Settles, StoppedInRound, TickedSome, ticks};
ghost use Rattle.shm_world.specs.World.{StandsFor, after};

mod deliver_oldest_first;
mod settled;

pub use deliver_oldest_first::{deliver_all, oldest_from};
pub use settled::Settled;
use shm_place::SiteId;
use shm_world::{Event, World};
use std::alloc::{AllocError, Allocator};

/// Ticks each site once, in the order of their numbers. Then it hands over what is on its way, and what that causes, the oldest first,
/// until nothing is on its way or `budget` envelopes were handed over. Where memory is refused it stops after the events that were made.
///
/// A budget of 114 for each envelope sent up to the last tick is enough. Where the world comes to rest, and no more envelopes were sent
/// than a world counts (2^63), no call is outstanding, no purge unanswered, no transaction runs and no Ask waits. Each request that is
/// still pending was turned away, as sixteen waited at its page's manager. Where the world was brought to rest before, with nothing lost
/// and no site restarted since, no request is pending then.
pub fn settle<A: Allocator + Copy>(world: &mut World<A>, budget: u64) -> Result<Settled, AllocError>
    ensures made { (w : model.World) → StandsFor world.old w → IfOk result (λ settled. HandedOver world.new (after w (ticks w.count)) settled.deliveries) }
    ensures within { IfOk result (λ settled. settled.deliveries ≤ budget) }
    ensures rest { (w u : model.World) → StandsFor world.old w → StandsFor world.new u → IfOk result (λ settled. IsTrue settled.at_rest ↔ IsAtRest u) }
    ensures spent { IfOk result (λ settled. settled.at_rest ≡ false → settled.deliveries ≡ budget) }
    ensures enough { (o : model.Opening) (before : List Event) → StandsFor world.old (model.run o before).world
        → deliveries_left (model.run o (before ++ ticks (model.sites_of o))).world ≤ budget → IfOk result (λ settled. IsTrue settled.at_rest) }
    ensures settles { (o : model.Opening) (before : List Event) → model.IsOpening o → StandsFor world.old (model.run o before).world
        → IfOk result (λ settled. IsTrue settled.at_rest → Settles world.new o before) }
    ensures serves { (o : model.Opening) (before round : List Event) → model.IsOpening o → IsRound o before round
        → StandsFor world.old (model.run o (before ++ round)).world → IfOk result (λ settled. IsTrue settled.at_rest → ServesAll world.new o before round) }
    ensures part { (w : model.World) → StandsFor world.old w → OnErr result (StoppedInRound world.new w budget) }
{
    tick_all(world)?;
    deliver_all(world, budget)
}

/// Each site ticks once.
fn tick_all<A: Allocator + Copy>(world: &mut World<A>) -> Result<(), AllocError>
    ensures made { (w : model.World) → StandsFor world.old w → OnOk result (StandsFor world.new (after w (ticks w.count))) }
    ensures part { (w : model.World) → StandsFor world.old w → OnErr result (TickedSome world.new w) }
{
    let sites = world.sites();
    'sites: for site in 0..sites.count() {
        world.step(Event::Tick { site: SiteId(site) })?;
    }
    Ok(())
}
