//! Deliveries end.
ghost use Rattle.std.specs.Prelude.{ℕ, List, ◌++◌, ◌<◌, ◌≤◌, ◌*◌, IsTrue, is_some, length, map};
ghost use Rattle.shm_model.specs.World.{IsOpening, Opening, live, next, run};
ghost use Rattle.shm_model.specs.declared.event.Event.{Event};
ghost use Rattle.shm_model.specs.declared.event.Event.TheVariants as event;
ghost use Rattle.shm_progress.specs.Deliveries.{AreOnTheirWay, ComesToRest, IsAtRest, deliveries_left};

/// Each delivery counts: in every world that some events lead to, whatever was lost, repeated or restarted before, the delivery of an
/// envelope on its way lowers the number of deliveries that are left.
pub fn each_delivery_counts()
    ensures { (o : Opening) (events : List Event) (k : ℕ) → IsTrue (is_some (live (run o events).world k))
        → deliveries_left (next (run o events).world (event.Deliver k)).world < deliveries_left (run o events).world }
{}

/// Deliveries end. Take any world that some events lead to, and deliveries that are each of an envelope then on its way, in whatever order.
/// There is a bound on their number, and once it is reached nothing is on its way.
pub fn deliveries_end()
    ensures rest { (o : Opening) (events : List Event) (envelopes : List ℕ) → AreOnTheirWay (run o events).world envelopes
        → deliveries_left (run o events).world ≤ length envelopes
        → IsAtRest (run o (events ++ map event.Deliver envelopes)).world }
    ensures most { (o : Opening) (events : List Event) (envelopes : List ℕ) → AreOnTheirWay (run o events).world envelopes
        → length envelopes ≤ deliveries_left (run o events).world }
{}

/// Deliveries are few: with at most 16 sites, at most 114 for each envelope that was ever sent.
pub fn deliveries_are_few()
    ensures measure { (o : Opening) (events : List Event) → IsOpening o → deliveries_left (run o events).world ≤ 114 * length (run o events).world.sent }
    ensures most { (o : Opening) (events : List Event) (envelopes : List ℕ) → IsOpening o → AreOnTheirWay (run o events).world envelopes
        → length envelopes ≤ 114 * length (run o events).world.sent }
{}

/// Every world comes to rest: some deliveries, each of an envelope that is on its way, leave nothing on its way.
pub fn worlds_come_to_rest()
    ensures { (o : Opening) (events : List Event) → ComesToRest o events }
{}
