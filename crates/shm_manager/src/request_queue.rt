ghost use Rattle.std.specs.Prelude.{◌≡◌, ◌<◌, [], ◌∷◌, ◌++◌, length, nat_le, option_map, slice_get, IfOk, IfNone, IfSome};
ghost use Rattle.shm_number.specs.Served.{served_of};
ghost use Rattle.shm_model.specs.Book as model;
ghost use Rattle.shm_manager.specs.Queue.{waiting_from, waiting_of, before, is_among};

use crate::waiting_request::Ask;
use circular_buffer::HeapCircularBuffer;
use shm_model::Kind;
use shm_number::Served;
use shm_place::SiteId;
use std::alloc::{AllocError, Allocator};
use std::marker::Model;

/// At most 16 requests that wait, the oldest first.
#[derive(Drop)]
pub(crate) struct Queue<A: Allocator> {
    ring: HeapCircularBuffer<Ask, A>,
}

impl<A: Allocator> Model for Queue<A> {
    ghost use Rattle.std.specs.Prelude.{◌≡◌, ◌≤◌, List, length};
    ghost use Rattle.shm_model.specs.Book.{Waiting};

    ghost Value = { List Waiting };

    ghost use Rattle.shm_manager.specs.Queue.{all_waiting};

    ghost view = { λ queue. all_waiting queue.ring.items };

    ghost invariant = { λ queue. queue.ring.capacity ≡ 16 };
}

impl<A: Allocator> Queue<A> {
    pub(crate) fn new(alloc: A) -> Result<Self, AllocError>
        ensures { IfOk result (λ queue. queue ≡ []) }
    {
        let ring = HeapCircularBuffer::with_capacity(alloc, 16)?;
        Ok(Queue { ring })
    }

    pub(crate) fn is_full(&self) -> bool
        ensures { result ≡ nat_le model.max_waiting (length self.now) }
    {
        self.ring.len() >= 16
    }

    pub(crate) fn contains(&self, from: SiteId, request: u64) -> bool
        ensures { result ≡ model.is_waiting from request self.now }
    {
        is_among(&self.ring, from, request)
    }

    /// The request in this place, the oldest in place 0: its site, its number and what it asks for.
    pub(crate) fn get(&self, place: usize) -> Option<(SiteId, (u64, Kind))>
        ensures { option_map waiting_from result ≡ slice_get self.now place }
    {
        match self.ring.get(place) {
            Some(ask) => Some((ask.from, (ask.request, ask.kind))),
            None => None,
        }
    }

    pub(crate) fn push(&mut self, ask: Ask)
        requires { length self.old < 16 }
        ensures { self.new ≡ self.old ++ waiting_of ask ∷ [] }
    {
        self.ring.push_back(ask);
    }

    pub(crate) fn clear(&mut self)
        ensures { self.new ≡ [] }
    {
        self.ring.clear();
    }

    /// Takes out the first request that is still to be served, and drops those before it.
    pub(crate) fn next_unserved(&mut self, served: &Served) -> Option<Ask>
        ensures first { before result self.new ≡ model.unserved (served_of served.now) self.old }
        ensures fresh { IfSome result (λ ask. (ask.from < 16) × (served_of served.now ask.from < ask.request)) }
        ensures empty { IfNone result (self.new ≡ []) }
    {
        'asks: while let Some(ask) = self.ring.pop_front() {
            if served.fresh(ask.from, ask.request) {
                return Some(ask);
            }
        }
        None
    }
}

impl<A: Allocator + Copy> Queue<A> {
    pub(crate) fn copy(&self) -> Result<Self, AllocError>
        ensures { IfOk result (λ queue. queue ≡ self.now) }
    {
        let mut ring = HeapCircularBuffer::with_capacity(*self.ring.allocator(), 16)?;
        // Reading it tells the proof its limits.
        let _count = self.ring.len();
        let (front, back) = self.ring.as_slices();
        ring.extend_from_slice(front);
        ring.extend_from_slice(back);
        Ok(Queue { ring })
    }
}

fn is_among<A: Allocator>(ring: &HeapCircularBuffer<Ask, A>, from: SiteId, request: u64) -> bool
    ensures { result ≡ is_among from request ring.now.items }
{
    ring.iter()
        .any(|ask| ask.from == from && ask.request == request)
}
