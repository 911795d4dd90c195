ghost use Rattle.std.specs.Prelude.{List};
ghost use Rattle.shm_model.specs.History.{Counted, ExecutedOnce, HomesKeepTheirPart, PurgedDead};
ghost use Rattle.shm_model.specs.World.{IsOpening, Opening, run};
ghost use Rattle.shm_model.specs.declared.event.Event.{Event};

/// Each segment call is executed once. Every reply that was sent or answered is the one kernel's, at the call's place among the calls in
/// the order of their first arrival. Losses, repeats, reordering and restarts don't change that.
pub fn each_call_is_executed_once()
    ensures { (o : Opening) (events : List Event) → IsOpening o → ExecutedOnce o (run o events) }
{}

/// Homes keep their part: each home's table has exactly those segments of the one kernel's list that are its own, unchanged and in that
/// order.
pub fn homes_keep_their_part()
    ensures { (o : Opening) (events : List Event) → IsOpening o → HomesKeepTheirPart o (run o events) }
{}

/// Attachments are counted. A segment that isn't destroyed counts the attachments that name it, the attaches whose sites don't know yet
/// that they succeeded, and the detaches that its home doesn't know of yet. No attachment names a destroyed segment.
pub fn attachments_are_counted()
    ensures { (o : Opening) (events : List Event) → IsOpening o → Counted o (run o events) }
{}

/// Nothing alive is purged: a segment that some site has purged is destroyed, and no attachment of any site names it.
pub fn nothing_alive_is_purged()
    ensures { (o : Opening) (events : List Event) → IsOpening o → PurgedDead o (run o events) }
{}
