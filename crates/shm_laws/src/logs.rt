ghost use Rattle.std.specs.Prelude.{◌≡◌, List};
ghost use Rattle.shm_model.specs.Log.{Logged, LogsFit, LogsMatch};
ghost use Rattle.shm_model.specs.Merge.{IsMerged, RunsAs, SiteStep, events_in};
ghost use Rattle.shm_model.specs.World.{Opening, run};

/// Logs have at most one order by stamp and site.
pub fn logs_have_one_order()
    ensures { (logs : List (List Logged)) (one other : List SiteStep) → IsMerged logs one → IsMerged logs other → one ≡ other }
{}

/// A merged list of logs is a run. Take logs that fit and whose deliveries match: their one order by stamp and site is a run that makes
/// just the logged steps, each with the answer and the envelopes that its log has.
pub fn merged_logs_are_a_run()
    ensures { (o : Opening) (logs : List (List Logged)) (order : List SiteStep) → LogsFit o logs → LogsMatch logs → IsMerged logs order
        → RunsAs o logs order (run o (events_in order)) }
{}
