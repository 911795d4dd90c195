//! The checkpoints that a session keeps.
ghost use Rattle.std.specs.Prelude.{◌≡◌, ◌≤◌, IfOk, IfSome, length, nat_le};
ghost use Rattle.std.specs.List.{take_while};
ghost use Rattle.shm_debug.specs.Checkpoints.{AllHold, Holds};
ghost use Rattle.shm_debug.specs.Standing.{Standing, first_events};

use crate::checkpoint::Checkpoint;
use circular_buffer::HeapCircularBuffer;
use std::alloc::{AllocError, Allocator, Global};

/// How many checkpoints are kept: the latest ones.
const MOST_CHECKPOINTS: usize = 16;

/// The checkpoints, the oldest first.
#[derive(Drop)]
pub struct Checkpoints<A: Allocator + Copy = Global> {
    ring: HeapCircularBuffer<Checkpoint<A>, A>,
}

impl<A: Allocator + Copy> Checkpoints<A> {
    /// No checkpoint, and room for all.
    pub(crate) fn new(alloc: A) -> Result<Checkpoints<A>, AllocError>
        ensures { (s : Standing) → IfOk result (λ checkpoints. AllHold s checkpoints) }
    {
        let ring = HeapCircularBuffer::with_capacity(alloc, MOST_CHECKPOINTS)?;
        Ok(Checkpoints { ring })
    }

    /// The latest checkpoint.
    pub(crate) fn latest(&self) -> Option<&Checkpoint<A>>
        ensures { (s : Standing) → AllHold s self.now → IfSome result (λ checkpoint. Holds s checkpoint.now) }
    {
        self.ring.back()
    }

    /// Takes the latest checkpoint out, if it is the one that moves, and is at least `least` and fewer than `most` events before the place
    /// `last`.
    pub(crate) fn take_moving(
        &mut self,
        last: usize,
        least: u64,
        most: u64,
    ) -> Option<Checkpoint<A>>
        ensures taken { (s : Standing) → AllHold s self.old → IfSome result (Holds s) }
        ensures left { (s : Standing) → AllHold s self.old → AllHold s self.new }
    {
        let latest = self.ring.back()?;
        let run = (last as u64).saturating_sub(latest.count);
        if !latest.moves || run < least || run >= most {
            return None;
        }
        self.ring.pop_back()
    }

    /// Keeps one more; the oldest goes where there are too many.
    pub(crate) fn keep(&mut self, checkpoint: Checkpoint<A>)
        ensures { (s : Standing) → AllHold s self.old → Holds s checkpoint → AllHold s self.new }
    {
        self.ring.push_back(checkpoint);
    }

    /// Gives all checkpoints up.
    pub(crate) fn clear(&mut self)
        ensures { (s : Standing) → AllHold s self.new }
    {
        self.ring.clear();
    }

    /// Drops the checkpoints past the first `count` events.
    pub(crate) fn drop_past(&mut self, count: u64)
        ensures { (s : Standing) → count ≤ length s.events → AllHold s self.old → AllHold (first_events count s) self.new }
    {
        let kept = self.count_within(count);
        self.ring.truncate_back(kept);
    }

    /// The number of checkpoints, from the oldest on, within the first `count` events.
    fn count_within(&self, count: u64) -> usize
        ensures { result ≡ length (take_while (λ checkpoint. nat_le checkpoint.count count) self.now.ring.items) }
    {
        // Reading it tells the proof its limits.
        let _most = self.ring.len();
        self.ring.iter().take_while(|c| c.count <= count).count()
    }
}
