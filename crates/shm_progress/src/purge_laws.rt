//! Destroyed segments are purged.
ghost use Rattle.std.specs.Prelude.{◌≡◌, ℕ, false, List, Some, slice_get};
ghost use Rattle.shm_model.specs.Site.{Site};
ghost use Rattle.shm_model.specs.World.{IsOpening, Opening, is_full};
ghost use Rattle.shm_model.specs.declared.event.Event.{Event};
ghost use Rattle.shm_progress.specs.Deliveries.{IsAtRest};
ghost use Rattle.shm_progress.specs.OnTheWay.{NothingLost, world_since};
ghost use Rattle.shm_progress.specs.Purging.{PurgesGoOn};

/// Purges go on. Once a home ticked, as long as nothing is lost, each site that hasn't answered its purge of a destroyed segment is being
/// asked, or its answer is on its way. Anything else may happen, restarts too. No more envelopes were sent than a world counts.
pub fn purges_go_on()
    ensures { (o : Opening) (earlier later : List Event) (home : ℕ) → IsOpening o → NothingLost later → is_full (world_since o earlier home later) ≡ false
        → PurgesGoOn (world_since o earlier home later) home }
{}

/// Purges end: once nothing is on its way then, all sites have answered.
pub fn purges_end()
    ensures { (o : Opening) (earlier later : List Event) (home id site : ℕ) (x : Site) → IsOpening o → NothingLost later
        → is_full (world_since o earlier home later) ≡ false
        → IsAtRest (world_since o earlier home later) → slice_get (world_since o earlier home later).sites home ≡ Some x → x.missing id site ≡ false }
{}
