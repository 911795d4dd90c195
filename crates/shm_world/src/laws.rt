//! Laws of every run: each is the contract of a function without parameters, which does nothing.
ghost use Rattle.std.specs.Prelude.{List};
ghost use Rattle.shm_model.specs.declared.event.Event.{Event};
ghost use Rattle.shm_model.specs.Inputs.{OwnInputs};
ghost use Rattle.shm_model.specs.Memory.{Coherent, Legal};
ghost use Rattle.shm_model.specs.Transactions.{BytesAreLast, InvalidatedFirst, NumbersTell, ReadersAreKnown};
ghost use Rattle.shm_model.specs.World.{IsOpening, Opening, run};
ghost use Rattle.shm_model.specs.Promise.{Promised};

/// Each load gives the last store to its place, or 0; and no page is writable at one site while readable at another (Li and Hudak 1989, §2).
pub fn every_run_is_legal_and_coherent()
    ensures legal { (o : Opening) (events : List Event) → IsOpening o → Legal o (run o events).account }
    ensures coherent { (o : Opening) (events : List Event) → IsOpening o → Coherent (run o events).world }
{
    shm_laws::every_run_is_legal_and_coherent();
}

/// A number above its receiver's belongs to the transaction that runs at the page's manager.
pub fn numbers_tell_what_is_late()
    ensures { (o : Opening) (events : List Event) → IsOpening o → NumbersTell (run o events).world }
{
    shm_laws::numbers_tell_what_is_late();
}

/// Who may read a page is known to its manager.
pub fn readers_are_known()
    ensures { (o : Opening) (events : List Event) → IsOpening o → ReadersAreKnown (run o events).world }
{
    shm_laws::readers_are_known();
}

/// The owner gives a page up for writing only after all copies were invalidated (Li and Hudak 1989, §3).
pub fn copies_are_invalidated_first()
    ensures { (o : Opening) (events : List Event) → IsOpening o → InvalidatedFirst (run o events).world }
{
    shm_laws::copies_are_invalidated_first();
}

/// Bytes that may be read or installed, or are kept for the site that a page was handed to, are those stored last.
pub fn bytes_are_the_last_stored()
    ensures { (o : Opening) (events : List Event) → IsOpening o → BytesAreLast o (run o events) }
{
    shm_laws::bytes_are_the_last_stored();
}

/// Each site runs on exactly its own inputs.
pub fn sites_run_on_their_own_inputs()
    ensures { (o : Opening) (events : List Event) → OwnInputs o (run o events) }
{
    shm_laws::sites_run_on_their_own_inputs();
}

/// The promise of every run: it is legal and coherent, each call was executed once, attachments are counted, and nothing alive was purged.
pub fn every_run_keeps_the_promise()
    ensures { (o : Opening) (events : List Event) → IsOpening o → Promised o events }
{
    shm_laws::every_run_keeps_the_promise();
}
