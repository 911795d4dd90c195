//! Requests are taken up.
ghost use Rattle.std.specs.Prelude.{◌≡◌, ℕ, ◌⊎◌, false, List, [], ◌∷◌, ◌++◌, Some, Contains, slice_get};
ghost use Rattle.shm_place.specs.Page.{manager_of};
ghost use Rattle.shm_model.specs.Site.{Pending, Site};
ghost use Rattle.shm_model.specs.World.{IsOpening, Opening, is_full, run, sites_of};
ghost use Rattle.shm_model.specs.declared.event.Event.{Event};
ghost use Rattle.shm_model.specs.declared.event.Event.TheVariants.{Tick};
ghost use Rattle.shm_progress.specs.Deliveries.{IsAtRest};
ghost use Rattle.shm_progress.specs.OnTheWay.{NothingLost};
ghost use Rattle.shm_progress.specs.Requests.{IsTakenUpAt, RequestsGoOn, StartedAreServed, TookNone};
ghost use Rattle.shm_progress.specs.Transactions.{IsPurgedSomewhere, NotRestarted};

/// Requests go on. Once a site ticked, as long as nothing is lost and a manager doesn't restart, each request that the site has pending at
/// that manager has its Ask on its way, or waits there, or its transaction was started. The exceptions: its Ask came while sixteen waited
/// for the page, or no transaction's number was left at some time since, or the page's segment is being purged. Anything else may happen,
/// new accesses and restarts of other sites too. No more envelopes were sent than a world counts.
pub fn requests_go_on()
    ensures { (o : Opening) (earlier later : List Event) (site manager : ℕ) → IsOpening o → NothingLost later → NotRestarted manager later
        → is_full (run o ((earlier ++ (Tick site ∷ [])) ++ later)).world ≡ false → RequestsGoOn o (earlier ++ (Tick site ∷ [])) later manager site }
{}

/// Requests end: once nothing is on its way then, each of them was taken up, or it was turned away or no number was left, or the segment is
/// being purged.
pub fn requests_end()
    ensures { (o : Opening) (earlier later : List Event) (site manager : ℕ) (x : Site) (p : Pending) → IsOpening o → NothingLost later
        → NotRestarted manager later
        → is_full (run o ((earlier ++ (Tick site ∷ [])) ++ later)).world ≡ false → IsAtRest (run o ((earlier ++ (Tick site ∷ [])) ++ later)).world
        → slice_get (run o ((earlier ++ (Tick site ∷ [])) ++ later)).world.sites site ≡ Some x → Contains x.pending p → manager_of (sites_of o) p.page ≡ manager
        → IsTakenUpAt (run o ((earlier ++ (Tick site ∷ [])) ++ later)).world manager site p
        ⊎ (TookNone o (earlier ++ (Tick site ∷ [])) later manager site p
        ⊎ IsPurgedSomewhere (run o ((earlier ++ (Tick site ∷ [])) ++ later)).world p.page.seg) }
{}

/// Started requests are served. In every world that some events lead to, whatever was lost, repeated or restarted before, a pending request
/// whose transaction was started is the one that runs, and its site hasn't met that transaction. So a transaction that ends leaves no
/// request pending that it was started for.
pub fn started_requests_are_served()
    ensures { (o : Opening) (events : List Event) → IsOpening o → StartedAreServed (run o events).world }
{}
