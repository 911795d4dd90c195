ghost use Rattle.std.specs.Prelude.{◌≡◌, List, ◌++◌};
ghost use Rattle.shm_model.specs.Inputs.{OwnInputs};
ghost use Rattle.shm_model.specs.World.{Opening, run, run_on};
ghost use Rattle.shm_model.specs.declared.event.Event.{Event};

/// A run goes on: the run of two lists of events, one after the other, is that of the second from where the first leaves it.
pub fn runs_go_on()
    ensures { (o : Opening) (earlier later : List Event) → run o (earlier ++ later) ≡ run_on (run o earlier) later }
{}

/// Each site runs on exactly its own inputs. Its state, its answers and what it sends are those of its own inputs in their order, whatever
/// happens elsewhere. What is handed to it was sent to it before.
pub fn sites_run_on_their_own_inputs()
    ensures { (o : Opening) (events : List Event) → OwnInputs o (run o events) }
{}
