//! The promise: all that a user of shared memory may rely on, of every run.
ghost use Rattle.std.specs.Prelude.{List};
ghost use Rattle.shm_model.specs.declared.event.Event.{Event};
ghost use Rattle.shm_model.specs.Promise.{Promised};
ghost use Rattle.shm_model.specs.World.{IsOpening, Opening};

/// From each opening, for every list of events, what is promised holds: the run is legal and its world coherent, each segment call was
/// executed once, attachments are counted, and nothing alive was purged.
pub fn every_run_keeps_the_promise()
    ensures { (o : Opening) (events : List Event) → IsOpening o → Promised o events }
{
    crate::every_run_is_legal_and_coherent();
    crate::each_call_is_executed_once();
    crate::attachments_are_counted();
    crate::nothing_alive_is_purged();
}
