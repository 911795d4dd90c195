//! Laws of the definitions, for every script.
ghost use Rattle.std.specs.Prelude.{ℕ, List};
ghost use Rattle.shm_debug.specs.Promise.{AlwaysKept, AlwaysTellsLast};
ghost use Rattle.shm_debug.specs.Script.{script_of};
ghost use Rattle.shm_debug.specs.Tell.{EachEventTells};

/// Up to wherever a script is read, take the run of the events that stand then. In it each load gives the byte that was stored last to its
/// place, no page is writable at one site while readable at another, each segment call was executed once, attachments are counted, and
/// nothing alive was purged (Li and Hudak 1989, §2: coherent memory). So each byte answered to a load is the last stored.
pub fn every_script_keeps_the_promise()
    ensures kept { (bytes : List ℕ) → AlwaysKept (script_of bytes).lines }
    ensures last { (bytes : List ℕ) → AlwaysTellsLast (script_of bytes).lines }
{
    shm_lines::laws::lines_have_one_spelling();
    shm_world::laws::every_run_keeps_the_promise();
}

/// The envelopes that an event sends aren't gone right after it, and its line tells exactly these.
pub fn an_event_tells_what_it_sent()
    ensures { EachEventTells }
{}
