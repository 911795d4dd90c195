//! Rounds settle what was begun.
ghost use Rattle.std.specs.Prelude.{◌≡◌, ◌≤◌, false, List, ◌++◌};
ghost use Rattle.shm_model.specs.Basics.{max_sent};
ghost use Rattle.shm_model.specs.World.{IsOpening, Opening, is_full, run, sites_of};
ghost use Rattle.shm_model.specs.declared.event.Event.{Event};
ghost use Rattle.shm_progress.specs.Bounds.{sent_to_serve};
ghost use Rattle.shm_progress.specs.Deliveries.{IsAtRest};
ghost use Rattle.shm_progress.specs.OnTheWay.{NothingLost};
ghost use Rattle.shm_progress.specs.Requests.{RequestsSettled};
ghost use Rattle.shm_progress.specs.Rounds.{AllTick, FaultsServed, ManagersSettled, NoneAccesses, NonePending, NoneRestarted, Round, Served, ServedLater, Settled};

/// Rounds exist. From every world that some events lead to, each site's tick and then some deliveries, with no loss, no restart, no load
/// and no store, leave nothing on its way. They are at most `round_events` of the world, and at most `round_sent` envelopes were sent after
/// them. So the laws on rounds are about each world, as long as no more envelopes are sent than a world counts.
pub fn rounds_exist()
    ensures { (o : Opening) (events : List Event) → Round o events }
{}

/// Rounds settle calls and purges. Take any world that some events lead to, and further events that lose nothing, among which each site
/// ticks and after which nothing is on its way. They leave no call outstanding and no purge unanswered. Anything else may be among them,
/// restarts too. No more envelopes were sent than a world counts.
pub fn rounds_settle_calls_and_purges()
    ensures { (o : Opening) (earlier later : List Event) → IsOpening o → NothingLost later → AllTick (sites_of o) later
        → is_full (run o (earlier ++ later)).world ≡ false
        → IsAtRest (run o (earlier ++ later)).world → Settled (run o (earlier ++ later)).world }
{}

/// Rounds settle transactions: where none of those events restarts a site, they leave no transaction running at any manager, and no Ask
/// waiting there; nor does one wait for a segment that is being purged, for all sites have purged it then.
pub fn rounds_settle_transactions()
    ensures { (o : Opening) (earlier later : List Event) → IsOpening o → NothingLost later → NoneRestarted later → AllTick (sites_of o) later
        → is_full (run o (earlier ++ later)).world ≡ false → IsAtRest (run o (earlier ++ later)).world → ManagersSettled (run o (earlier ++ later)).world }
{}

/// Rounds settle requests: where none of those events restarts a site, each request that is still pending was turned away: its Ask came
/// among them while sixteen waited for the page at its manager.
pub fn rounds_settle_requests()
    ensures { (o : Opening) (earlier later : List Event) → IsOpening o → NothingLost later → NoneRestarted later → AllTick (sites_of o) later
        → is_full (run o (earlier ++ later)).world ≡ false → IsAtRest (run o (earlier ++ later)).world → RequestsSettled o earlier later }
{}

/// Second rounds settle requests: two such rounds in a row, of which the second has no loads and no stores, leave no request pending at any
/// site. For then each site asks for a page with one request alone, so that fewer than sixteen wait behind the one that is served.
pub fn second_rounds_settle_requests()
    ensures { (o : Opening) (earlier first second : List Event) → IsOpening o → NothingLost first → NoneRestarted first → AllTick (sites_of o) first
        → IsAtRest (run o (earlier ++ first)).world → NothingLost second → NoneRestarted second → NoneAccesses second → AllTick (sites_of o) second
        → is_full (run o ((earlier ++ first) ++ second)).world ≡ false → IsAtRest (run o ((earlier ++ first) ++ second)).world
        → NonePending (run o ((earlier ++ first) ++ second)).world }
{}

/// Faults are served. Along two such rounds each request that was pending before them gains its right at some time, to read for a load and
/// to write for a store, or its site has purged the segment after them. This doesn't say how long the right stays: another site may have
/// taken it before its caller tries again.
pub fn faults_are_served()
    ensures { (o : Opening) (earlier first second : List Event) → IsOpening o → NothingLost first → NoneRestarted first → AllTick (sites_of o) first
        → IsAtRest (run o (earlier ++ first)).world → NothingLost second → NoneRestarted second → NoneAccesses second → AllTick (sites_of o) second
        → is_full (run o ((earlier ++ first) ++ second)).world ≡ false → IsAtRest (run o ((earlier ++ first) ++ second)).world
        → FaultsServed o earlier (first ++ second) }
{}

/// Nothing stops a site for good: whatever all sites did, and whatever was lost, from each world there are further events, with no loss,
/// restart, load or store among them, after which no request is pending; and each that was pending gained its right in them, or its site
/// has purged the segment. They are at most `events_to_serve` of the world, and at most `sent_to_serve` envelopes were sent after them:
/// where a world counts that many, it isn't full then.
pub fn nothing_stops_a_site_for_good()
    ensures later { (o : Opening) (events : List Event) → IsOpening o → ServedLater o events }
    ensures served { (o : Opening) (events : List Event) → IsOpening o → sent_to_serve (run o events).world ≤ max_sent → Served o events }
{}
