//! What was begun is served.
ghost use Rattle.std.specs.Prelude.{◌≡◌, ℕ, false, List, Some, None, slice_get};
ghost use Rattle.shm_model.specs.Site.{Site};
ghost use Rattle.shm_model.specs.World.{IsOpening, Opening, is_full};
ghost use Rattle.shm_model.specs.declared.event.Event.{Event};
ghost use Rattle.shm_progress.specs.Deliveries.{IsAtRest};
ghost use Rattle.shm_progress.specs.OnTheWay.{NothingLost, world_since};
ghost use Rattle.shm_progress.specs.Serving.{CallGoesOn};

/// Calls go on. Once a site ticked, as long as nothing is lost, its outstanding call is on its way to its home or a reply is on its way
/// back. Anything else may happen, restarts too. No more envelopes were sent than a world counts.
pub fn calls_go_on()
    ensures { (o : Opening) (earlier later : List Event) (site : ℕ) → IsOpening o → NothingLost later → is_full (world_since o earlier site later) ≡ false
        → CallGoesOn (world_since o earlier site later) site }
{}

/// Calls end: once nothing is on its way then, the site has no call outstanding.
pub fn calls_end()
    ensures { (o : Opening) (earlier later : List Event) (site : ℕ) (x : Site) → IsOpening o → NothingLost later
        → is_full (world_since o earlier site later) ≡ false
        → IsAtRest (world_since o earlier site later) → slice_get (world_since o earlier site later).sites site ≡ Some x → x.outstanding ≡ None }
{}
