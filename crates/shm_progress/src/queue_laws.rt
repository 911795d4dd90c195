//! Queues of requests at the managers.
ghost use Rattle.std.specs.Prelude.{List};
ghost use Rattle.shm_model.specs.World.{Opening, run};
ghost use Rattle.shm_model.specs.declared.event.Event.{Event};
ghost use Rattle.shm_progress.specs.Queues.{NoneWaitsForNothing};

/// None waits for nothing: in every world that some events lead to, an Ask waits in a manager's book only behind a transaction that runs.
pub fn none_waits_for_nothing()
    ensures { (o : Opening) (events : List Event) → NoneWaitsForNothing (run o events).world }
{}
