//! Where what a site sends goes.
use std::alloc::{AllocError, Allocator};

/// Where envelopes go, the first to send first: a list of a box's own, or a world's network. Whoever sends makes room, and then pushes
/// what there is room for.
pub trait Outbox<E> {
    ghost use Rattle.std.specs.Prelude.{[], ◌∷◌, ◌++◌, ◌≤◌, ◌<◌, ◌+◌, ℕ, List, OnOk};

    /// The second is the first with these envelopes behind what was there.
    ghost posted: { Self → Self → List E → Type 0 };

    /// This many more fit without more memory.
    ghost room: { Self → ℕ };

    /// Posting nothing changes nothing.
    ghost nothing: { (outbox : Self) → posted outbox outbox [] };

    /// Posting two lists, one after the other, posts both.
    ghost joined: { (first then last : Self) (xs ys : List E) → posted first then xs → posted then last ys → posted first last (xs ++ ys) };

    /// Makes room for this many more. Keeps what was there.
    fn reserve(&mut self, additional: usize) -> Result<(), AllocError>
        ensures same { posted self.old self.new [] }
        ensures room { OnOk result (additional ≤ room self.new) };

    /// Posts an envelope, for which there is room.
    fn push(&mut self, envelope: E)
        requires { 0 < room self.old }
        ensures posted { posted self.old self.new (envelope ∷ []) }
        ensures room { room self.old ≤ room self.new + 1 };
}

impl<E: Drop, A: Allocator> Outbox<E> for Vec<E, A> {
    ghost use Rattle.std.specs.Prelude.{◌-◌, length, vec_capacity};
    ghost use Rattle.shm_parts.specs.Outbox.{AddedTo, added_nothing, added_twice};

    ghost posted = { AddedTo };

    ghost room = { λ list. vec_capacity list - length list.items };

    ghost nothing = { added_nothing };

    ghost joined = { added_twice };

    fn reserve(&mut self, additional: usize) -> Result<(), AllocError> {
        Vec::reserve(self, additional)
    }

    fn push(&mut self, envelope: E) {
        self.push_reserved(envelope);
    }
}
