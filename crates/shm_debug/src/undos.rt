//! What undoes the last events, so that they can be taken back one by one.
ghost use Rattle.std.specs.Prelude.{◌≡◌, ◌-◌, ◌<◌, ◌&&◌, IfOk, IfSome, IsSome, length, nat_lt};
ghost use Rattle.shm_model.specs.declared.event.Event.{Event};
ghost use Rattle.shm_debug.specs.Standing.{Standing, with_event, without_last, world_of};
ghost use Rattle.shm_debug.specs.Undos.{AllLeadBack};
ghost use Rattle.shm_world.specs.Undo.{LeadsBack};

use circular_buffer::HeapCircularBuffer;
use shm_world::Undo;
use std::alloc::{AllocError, Allocator, Global};

/// Of how many events it is kept at most: of the last ones.
const MOST_UNDOS: usize = 16;

/// Two times of going back are near each other where fewer events than these were made between them.
const NEAR: u32 = 8;

/// What undoes the last events, the oldest first. Keeping it takes time, so a session does it only while going back is likely: near the
/// last `back`, if that was near the one before.
#[derive(Drop)]
pub struct Undos<A: Allocator + Copy = Global> {
    ring: HeapCircularBuffer<Undo<A>, A>,
    near: u32,
    likely: bool,
}

impl<A: Allocator + Copy> Undos<A> {
    /// Nothing is kept, and there is room for all that may be.
    pub(crate) fn new(alloc: A) -> Result<Undos<A>, AllocError>
        ensures { (s : Standing) → IfOk result (AllLeadBack s) }
    {
        let ring = HeapCircularBuffer::with_capacity(alloc, MOST_UNDOS)?;
        Ok(Undos {
            ring,
            near: 0,
            likely: false,
        })
    }

    /// Of how many events it is kept.
    pub(crate) fn len(&self) -> usize
        ensures { result ≡ length self.now.ring.items }
    {
        self.ring.len()
    }

    /// Checks whether to keep what undoes the next event.
    pub(crate) fn wants_next(&self) -> bool
        ensures { result ≡ (self.now.likely && nat_lt 0 self.now.near) }
    {
        self.likely && self.near > 0
    }

    /// This is kept of an event that was made. The oldest goes where there is too much.
    pub(crate) fn keep(&mut self, undo: Undo<A>)
        ensures { (s : Standing) (event : Event) → AllLeadBack s self.old → LeadsBack undo (world_of (with_event s event)) (world_of s)
            → AllLeadBack (with_event s event) self.new }
    {
        self.near = self.near.saturating_sub(1);
        self.ring.push_back(undo);
    }

    /// Notes that nothing was kept of an event. So what undoes the events before it is useless, and goes.
    pub(crate) fn miss(&mut self)
        ensures { (s : Standing) → AllLeadBack s self.new }
    {
        self.near = self.near.saturating_sub(1);
        if self.ring.is_empty() {
            return;
        }
        self.ring.clear();
    }

    /// What undoes the last event, for taking it back.
    pub(crate) fn pop(&mut self) -> Option<Undo<A>>
        ensures some { 0 < length self.old.ring.items → IsSome result }
        ensures leads { (s : Standing) → AllLeadBack s self.old
            → IfSome result (λ undo. LeadsBack undo (world_of s) (world_of (without_last s 1)) × AllLeadBack (without_last s 1) self.new) }
        ensures len { length self.new.ring.items ≡ length self.old.ring.items - 1 }
    {
        self.ring.pop_back()
    }

    /// Events are taken back now.
    pub(crate) fn note_back(&mut self)
        ensures { self.new.ring ≡ self.old.ring }
    {
        self.likely = self.near > 0;
        self.near = NEAR;
    }

    /// Checks that the last two times of going back were near each other.
    pub(crate) fn likely(&self) -> bool
        ensures { result ≡ self.now.likely }
    {
        self.likely
    }

    /// Forgets all that was kept.
    pub(crate) fn clear(&mut self)
        ensures { (s : Standing) → AllLeadBack s self.new }
    {
        self.ring.clear();
    }
}
