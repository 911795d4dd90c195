//! The headline: every run behaves as one plain memory.
ghost use Rattle.std.specs.Prelude.{List};
ghost use Rattle.shm_model.specs.declared.event.Event.{Event};
ghost use Rattle.shm_model.specs.Memory.{Coherent, Legal};
ghost use Rattle.shm_model.specs.World.{IsOpening, Opening, run};

/// From each opening, for every list of events: each completed load gives the last completed store to its place, or 0; and after the
/// events no page is writable at one site while readable at another, and all readable copies of a page are equal.
///
/// Since this holds of every list, it holds after each event of a list. The memory is that of Li and Hudak 1989, §2.
pub fn every_run_is_legal_and_coherent()
    ensures legal { (o : Opening) (events : List Event) → IsOpening o → Legal o (run o events).account }
    ensures coherent { (o : Opening) (events : List Event) → IsOpening o → Coherent (run o events).world }
{}
