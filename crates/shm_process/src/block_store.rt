ghost use Rattle.std.specs.Prelude.{◌+◌, ◌^◌, ◌<◌, ◌≤◌, vec_len};

use shm_model::{Answer, Asked};
use shm_wire::{Tag, WriteAsk};
use std::alloc::{Allocator, Global};

/// A block that a caller has stored: a row of stores of bytes. Not all of them are made yet.
#[derive(Drop)]
pub(crate) struct Write<A: Allocator + Copy = Global> {
    pub(crate) tag: Tag,
    pub(crate) at: u32,
    pub(crate) offset: u32,
    pub(crate) bytes: Vec<u8, A>,
    /// How many of them were stored so far.
    pub(crate) stored: usize,
    ghost more_to_store: { stored < vec_len bytes },
    ghost offsets: { offset + vec_len bytes ≤ 2 ^ 32 },
}

impl<A: Allocator + Copy> Write<A> {
    ghost use Rattle.std.specs.Prelude.{◌≡◌, ◌+◌, ◌<◌, false, length, nat_lt, true};
    ghost use Rattle.shm_process.specs.AskOf.{write_of};
    ghost use Rattle.shm_process.specs.Writes.{goes_on, next_store, stored_after};
    ghost use Rattle.shm_wire.specs.Asks.{is_block};
    ghost use Rattle.shm_wire.specs.TagOf.{tag_text};

    /// A block of which nothing was stored yet.
    pub(crate) fn new(ask: WriteAsk<A>) -> Write<A>
        requires { is_block ask.offset (vec_len ask.bytes) ≡ true }
        ensures { write_of result ≡ record { tag = tag_text ask.tag; at = ask.at; offset = ask.offset; bytes = ask.bytes.items; stored = 0 } }
    {
        let WriteAsk {
            tag,
            at,
            offset,
            bytes,
            ..
        } = ask;
        Write {
            tag,
            at,
            offset,
            bytes,
            stored: 0,
        }
    }

    /// Its next store: of the first byte that isn't stored.
    pub(crate) fn next_store(&self) -> Asked
        ensures { result ≡ next_store (write_of self.now) }
    {
        Asked::Store {
            at: self.at,
            offset: self.offset + self.stored as u32,
            byte: self.bytes[self.stored],
        }
    }

    /// The offset of its next store.
    pub(crate) fn next_offset(&self) -> u32
        ensures { result ≡ (write_of self.now).offset + (write_of self.now).stored }
    {
        self.offset + self.stored as u32
    }

    /// How many of its stores are left, but for the last.
    pub(crate) fn left(&self) -> usize
        ensures { (write_of self.now).stored + result < length (write_of self.now).bytes }
    {
        self.bytes.len() - self.stored - 1
    }

    /// Checks that it goes on waiting after its store has this answer.
    pub(crate) fn goes_on(&self, answer: &Answer) -> bool
        ensures { result ≡ goes_on (write_of self.now) answer.now }
    {
        match answer {
            Answer::Stored => self.stored + 1 < self.bytes.len(),
            Answer::Fault | Answer::Waiting => true,
            _ => false,
        }
    }

    /// It counts the byte that was stored, if one was.
    pub(crate) fn take(&mut self, answer: &Answer)
        requires { goes_on (write_of self.old) answer.now ≡ true }
        ensures { write_of self.new ≡ record (write_of self.old) { stored = stored_after (write_of self.old) answer.now } }
    {
        if let Answer::Stored = answer {
            self.stored += 1;
        }
    }

    /// It has so many bytes more stored, and not all yet.
    pub(crate) fn add(&mut self, count: usize)
        requires { nat_lt ((write_of self.old).stored + count) (length (write_of self.old).bytes) ≡ true }
        ensures { write_of self.new ≡ record (write_of self.old) { stored = (write_of self.old).stored + count } }
    {
        self.stored += count;
    }
}
