//! The parts of the headline that others may use: numbers, copies, bytes.
ghost use Rattle.std.specs.Prelude.{List};
ghost use Rattle.shm_model.specs.declared.event.Event.{Event};
ghost use Rattle.shm_model.specs.Transactions.{BytesAreLast, InvalidatedFirst, NumbersTell, ReadersAreKnown};
ghost use Rattle.shm_model.specs.World.{IsOpening, Opening, run};

/// A number above its receiver's belongs to the transaction that runs at the page's manager.
pub fn numbers_tell_what_is_late()
    ensures { (o : Opening) (events : List Event) → IsOpening o → NumbersTell (run o events).world }
{}

/// Who may read a page is known to its manager.
pub fn readers_are_known()
    ensures { (o : Opening) (events : List Event) → IsOpening o → ReadersAreKnown (run o events).world }
{}

/// The owner gives a page up for writing only after all copies were invalidated (Li and Hudak 1989, §3). Once it is told to, only it and
/// the requester may read the page.
pub fn copies_are_invalidated_first()
    ensures { (o : Opening) (events : List Event) → IsOpening o → InvalidatedFirst (run o events).world }
{}

/// Bytes that may be read or installed are those stored last, and so are those kept for a site that a page was handed to, until it has
/// them.
pub fn bytes_are_the_last_stored()
    ensures { (o : Opening) (events : List Event) → IsOpening o → BytesAreLast o (run o events) }
{}
