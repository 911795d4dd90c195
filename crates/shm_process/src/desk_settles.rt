//! After a line the asks that wait make all the steps that they can. Those of a block that go to one page are made at once.
ghost use Rattle.std.specs.Prelude.{◌≡◌, ◌+◌, ◌<◌, ◌≤◌, ℕ, max, IfOk, OnOk, Some, vec_len};
ghost use Rattle.shm_model.specs.Basics.{greatest};
ghost use Rattle.shm_process.specs.Desk.{all_made, made_again, settled};
ghost use Rattle.shm_process.specs.DeskOf.{desk_of};
ghost use Rattle.shm_process.specs.Waiting.{most_steps, ready};

use crate::desk::Desk;
use crate::node_takes_line::MOST_STEPS;
use shm_model::Asked;
use std::alloc::{AllocError, Allocator};

impl<A: Allocator + Copy> Desk<A> {
    /// Makes steps of the waiting asks, as long as one can be made, and at most `MOST_STEPS`.
    #[tactic(auto, unfolding(crate::specs::Desk::settled))]
    pub(crate) fn settle(&mut self) -> Result<(), AllocError>
        ensures { OnOk result (desk_of self.new ≡ settled most_steps (desk_of self.old)) }
    {
        self.make_all()?;
        self.close_row()
    }

    fn make_all(&mut self) -> Result<(), AllocError>
        ensures { OnOk result (desk_of self.new ≡ all_made most_steps (desk_of self.old)) }
    {
        let mut left = MOST_STEPS;
        'asks: while left > 0 {
            let Some(at) = self.node.ready() else {
                return Ok(());
            };
            left = self.make_some(at, left)?;
        }
        Ok(())
    }

    /// Makes steps of the ask at this place, the first that can be made: as many as can be made at once, or one. Answers how many of so many are
    /// left.
    fn make_some(&mut self, at: usize, left: usize) -> Result<usize, AllocError>
        requires first { ready (desk_of self.old).node ≡ Some at }
        requires within { at < vec_len self.old.node.waiting }
        requires early { max self.old.node.clock 0 < greatest }
        requires some { 0 < left }
        ensures fewer { IfOk result (λ after. after < left) }
        ensures made { IfOk result (λ after. all_made after (desk_of self.new) ≡ all_made left (desk_of self.old)) }
    {
        let made = self.make_further(at, left)?;
        if made == 0 {
            return self.make_next(left);
        }
        Ok(left - made)
    }

    /// Makes the oldest step that can be made. Answers how many of so many are left: none where none can be made.
    fn make_next(&mut self, left: usize) -> Result<usize, AllocError>
        requires some { 0 < left }
        ensures fewer { IfOk result (λ after. after < left) }
        ensures made { IfOk result (λ after. all_made after (desk_of self.new) ≡ all_made left (desk_of self.old)) }
    {
        let Some(at) = self.node.ready() else {
            return Ok(0);
        };
        self.make_one(at)?;
        Ok(left - 1)
    }

    /// Makes the next step of the ask at this place.
    fn make_one(&mut self, at: usize) -> Result<(), AllocError>
        requires first { ready (desk_of self.old).node ≡ Some at }
        requires within { at < vec_len self.old.node.waiting }
        requires early { max self.old.node.clock 0 < greatest }
        ensures { OnOk result (desk_of self.new ≡ made_again (desk_of self.old)) }
    {
        let again = self.node.make_at(at)?;
        self.push_again(&again)
    }

    /// Makes further steps of the ask at this place at once, where it is a block whose row goes on. Answers how many.
    fn make_further(&mut self, at: usize, most: usize) -> Result<usize, AllocError>
        requires first { ready (desk_of self.old).node ≡ Some at }
        requires within { at < vec_len self.old.node.waiting }
        requires early { max self.old.node.clock 0 < greatest }
        ensures few { IfOk result (λ made. made ≤ most) }
        ensures made { IfOk result (λ made. (k : ℕ) → all_made (made + k) (desk_of self.old) ≡ all_made k (desk_of self.new)) }
    {
        // It is read so that the proof knows it to be below 2^64: counting none then leaves it as it is.
        let _sent = self.counts.envelopes_sent();
        match self.node.next_of(at).1 {
            Asked::Load { .. } => self.load_further(at, most),
            Asked::Store { .. } => self.store_further(at, most),
        }
    }

    fn load_further(&mut self, at: usize, most: usize) -> Result<usize, AllocError>
        requires first { ready (desk_of self.old).node ≡ Some at }
        requires within { at < vec_len self.old.node.waiting }
        requires early { max self.old.node.clock 0 < greatest }
        requires sent { (desk_of self.old).counts.sent ≤ greatest }
        ensures few { IfOk result (λ made. made ≤ most) }
        ensures made { IfOk result (λ made. (k : ℕ) → all_made (made + k) (desk_of self.old) ≡ all_made k (desk_of self.new)) }
    {
        let clock = self.node.next_clock(0);
        let (tag, asked) = self.node.next_of(at);
        let Some(row) = &mut self.row else {
            return Ok(0);
        };
        let room = row.loads_room(clock, &tag, asked);
        let more = self.node.loads_ahead(at, most.min(room))?;
        let count = more.len();
        if count == 0 {
            return Ok(0);
        }
        row.add_loads(count);
        self.node.take_loads(at, more.as_slice());
        Ok(count)
    }

    fn store_further(&mut self, at: usize, most: usize) -> Result<usize, AllocError>
        requires first { ready (desk_of self.old).node ≡ Some at }
        requires within { at < vec_len self.old.node.waiting }
        requires early { max self.old.node.clock 0 < greatest }
        requires sent { (desk_of self.old).counts.sent ≤ greatest }
        ensures few { IfOk result (λ made. made ≤ most) }
        ensures made { IfOk result (λ made. (k : ℕ) → all_made (made + k) (desk_of self.old) ≡ all_made k (desk_of self.new)) }
    {
        let clock = self.node.next_clock(0);
        let (tag, asked) = self.node.next_of(at);
        let Some(row) = &mut self.row else {
            return Ok(0);
        };
        let room = row.stores_room(clock, &tag, asked);
        let more = self.node.stores_ahead(at, most.min(room))?;
        let count = more.len();
        if count == 0 {
            return Ok(0);
        }
        row.add_stores(more.as_slice())?;
        self.node.take_stores(at, more.as_slice())?;
        Ok(count)
    }
}
