//! Transactions end.
ghost use Rattle.std.specs.Prelude.{◌≡◌, ℕ, ◌⊎◌, false, List, Some, None, slice_get};
ghost use Rattle.shm_place.specs.declared.page_id.PageId.{PageId};
ghost use Rattle.shm_model.specs.Site.{Site};
ghost use Rattle.shm_model.specs.World.{IsOpening, Opening, is_full};
ghost use Rattle.shm_model.specs.declared.event.Event.{Event};
ghost use Rattle.shm_progress.specs.Deliveries.{IsAtRest};
ghost use Rattle.shm_progress.specs.OnTheWay.{NothingLost, world_since};
ghost use Rattle.shm_progress.specs.Transactions.{IsPurgedSomewhere, NotRestarted, TransactionsGoOn};

/// Transactions go on. Once a manager ticked, as long as nothing is lost and it doesn't restart, each transaction that runs at it has a
/// message on its way: the Clear or the Cleared of each site that it waits for or, where it waits for none, its Hand, its Page or its
/// Confirm. Anything else may happen, restarts of other sites too. A page whose segment is being purged is left out: a site that has purged
/// it doesn't answer. No more envelopes were sent than a world counts.
pub fn transactions_go_on()
    ensures { (o : Opening) (earlier later : List Event) (manager : ℕ) → IsOpening o → NothingLost later → NotRestarted manager later
        → is_full (world_since o earlier manager later) ≡ false → TransactionsGoOn (world_since o earlier manager later) manager }
{}

/// Transactions end: once nothing is on its way then, none runs at the manager, except of a segment that is being purged.
pub fn transactions_end()
    ensures { (o : Opening) (earlier later : List Event) (manager : ℕ) (x : Site) (page : PageId) → IsOpening o → NothingLost later → NotRestarted manager later
        → is_full (world_since o earlier manager later) ≡ false → IsAtRest (world_since o earlier manager later)
        → slice_get (world_since o earlier manager later).sites manager ≡ Some x
        → ((x.books page).running ≡ None) ⊎ IsPurgedSomewhere (world_since o earlier manager later) page.seg }
{}
