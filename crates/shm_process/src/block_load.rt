ghost use Rattle.std.specs.Prelude.{◌+◌, ◌^◌, ◌<◌, ◌≤◌, vec_capacity, vec_len};

use crate::waiting_ask::Ended;
use shm_model::{Answer, Asked};
use shm_wire::Tag;
use std::alloc::{AllocError, Allocator, Global};

/// A block that a caller has loaded: a row of loads of bytes. Not all of them are made yet, and there is room for all their bytes.
#[derive(Drop)]
pub(crate) struct Block<A: Allocator + Copy = Global> {
    pub(crate) tag: Tag,
    pub(crate) at: u32,
    pub(crate) offset: u32,
    pub(crate) length: u32,
    /// The bytes loaded so far.
    pub(crate) bytes: Vec<u8, A>,
    ghost more_to_load: { vec_len bytes < length },
    ghost room_for_all: { length ≤ vec_capacity bytes },
    ghost offsets: { offset + length ≤ 2 ^ 32 },
}

impl<A: Allocator + Copy> Block<A> {
    ghost use Rattle.std.specs.Prelude.{◌≡◌, ◌++◌, ◌+◌, ◌<◌, [], false, length, nat_lt, true, option_map, IfOk};
    ghost use Rattle.shm_process.specs.AskOf.{block_of};
    ghost use Rattle.shm_process.specs.Blocks.{bytes_after, goes_on, next_load, whole_after};
    ghost use Rattle.shm_wire.specs.Asks.{is_block};
    ghost use Rattle.shm_wire.specs.TagOf.{tag_text};

    /// A block of which nothing was loaded yet.
    pub(crate) fn new(
        alloc: A,
        tag: Tag,
        at: u32,
        offset: u32,
        length: u32,
    ) -> Result<Block<A>, AllocError>
        requires { is_block offset length ≡ true }
        ensures { IfOk result (λ block. block_of block ≡ record { tag = tag_text tag; at = at; offset = offset; count = length; bytes = [] }) }
    {
        let bytes = Vec::with_capacity(alloc, length as usize)?;
        Ok(Block {
            tag,
            at,
            offset,
            length,
            bytes,
        })
    }

    /// Its next load: of the first byte that isn't here.
    pub(crate) fn next_load(&self) -> Asked
        ensures { result ≡ next_load (block_of self.now) }
    {
        Asked::Load {
            at: self.at,
            offset: self.offset + self.bytes.len() as u32,
        }
    }

    /// The offset of its next load.
    pub(crate) fn next_offset(&self) -> u32
        ensures { result ≡ (block_of self.now).offset + length (block_of self.now).bytes }
    {
        self.offset + self.bytes.len() as u32
    }

    /// How many of its loads are left, but for the last.
    pub(crate) fn left(&self) -> usize
        ensures { length (block_of self.now).bytes + result < (block_of self.now).count }
    {
        self.length as usize - self.bytes.len() - 1
    }

    /// Checks that it goes on waiting after its load has this answer.
    pub(crate) fn goes_on(&self, answer: &Answer) -> bool
        ensures { result ≡ goes_on (block_of self.now) answer.now }
    {
        match answer {
            Answer::Byte(_) => self.bytes.len() + 1 < self.length as usize,
            Answer::Fault | Answer::Waiting => true,
            _ => false,
        }
    }

    /// It takes the byte that was loaded, if one was.
    pub(crate) fn take(&mut self, answer: &Answer)
        requires { goes_on (block_of self.old) answer.now ≡ true }
        ensures { block_of self.new ≡ record (block_of self.old) { bytes = bytes_after (block_of self.old) answer.now } }
    {
        if let Answer::Byte(byte) = answer {
            self.bytes.push_reserved(*byte);
        }
    }

    /// It has these bytes more, and not all yet.
    pub(crate) fn add(&mut self, more: &[u8])
        requires { nat_lt (length (block_of self.old).bytes + length more.now) (block_of self.old).count ≡ true }
        ensures { block_of self.new ≡ record (block_of self.old) { bytes = (block_of self.old).bytes ++ more.now } }
    {
        // There is room for all.
        let _ = self.bytes.extend_from_slice(more);
    }

    /// Its tag, and all its bytes if this is the last of them.
    pub(crate) fn end(self, answer: &Answer) -> Ended<A>
        requires { goes_on (block_of self) answer.now ≡ false }
        ensures tag { tag_text result.tag ≡ (block_of self).tag }
        ensures bytes { option_map (λ bytes. bytes.items) result.bytes ≡ whole_after (block_of self) answer.now }
    {
        let Block { tag, mut bytes, .. } = self;
        let Answer::Byte(byte) = answer else {
            return Ended { tag, bytes: None };
        };
        bytes.push_reserved(*byte);
        Ended {
            tag,
            bytes: Some(bytes),
        }
    }
}
