use crate::block_load::Block;
use crate::block_store::Write;
use crate::build_step_output::is_open;
use shm_model::{Answer, Asked};
use shm_wire::Tag;
use std::alloc::{Allocator, Global};

/// An ask that waits.
#[derive(Drop)]
pub(crate) enum WaitingAsk<A: Allocator + Copy = Global> {
    /// An access, under the tag of its caller.
    Access { tag: Tag, asked: Asked },
    Reads(Block<A>),
    Writes(Write<A>),
}

/// An ask that was answered.
#[derive(Drop)]
pub(crate) struct Ended<A: Allocator + Copy = Global> {
    /// The tag of the caller who gets the answer.
    pub(crate) tag: Tag,
    /// All bytes of a block that was loaded.
    pub(crate) bytes: Option<Vec<u8, A>>,
}

impl<A: Allocator + Copy> WaitingAsk<A> {
    ghost use Rattle.std.specs.Prelude.{◌≡◌, false, length, true, option_map};
    ghost use Rattle.shm_wire.specs.TagOf.{tag_text};
    ghost use Rattle.shm_process.specs.AskOf.{ask_of};
    ghost use Rattle.shm_process.specs.Further.{leaves_loads, leaves_stores, with_loaded, with_stored};
    ghost use Rattle.shm_process.specs.WaitingAsks.{after_answer, all_bytes, goes_on, next_access, tag_of};

    /// The tag of its caller.
    pub(crate) fn tag(&self) -> Tag
        ensures { tag_text result ≡ tag_of (ask_of self.now) }
    {
        match self {
            WaitingAsk::Access { tag, asked: _ } => *tag,
            WaitingAsk::Reads(block) => block.tag,
            WaitingAsk::Writes(write) => write.tag,
        }
    }

    /// The access that makes its next step.
    pub(crate) fn next_access(&self) -> Asked
        ensures { result ≡ next_access (ask_of self.now) }
    {
        match self {
            WaitingAsk::Access { tag: _, asked } => *asked,
            WaitingAsk::Reads(block) => block.next_load(),
            WaitingAsk::Writes(write) => write.next_store(),
        }
    }

    /// Checks that it goes on waiting after its step has this answer.
    pub(crate) fn goes_on(&self, answer: &Answer) -> bool
        ensures { result ≡ goes_on (ask_of self.now) answer.now }
    {
        match self {
            WaitingAsk::Access { .. } => is_open(answer),
            WaitingAsk::Reads(block) => block.goes_on(answer),
            WaitingAsk::Writes(write) => write.goes_on(answer),
        }
    }

    /// It goes on waiting after this answer.
    pub(crate) fn go_on(&mut self, answer: &Answer)
        requires { goes_on (ask_of self.old) answer.now ≡ true }
        ensures { ask_of self.new ≡ after_answer (ask_of self.old) answer.now }
    {
        match self {
            WaitingAsk::Access { .. } => {}
            WaitingAsk::Reads(block) => block.take(answer),
            WaitingAsk::Writes(write) => write.take(answer),
        }
    }

    /// A block that is loaded has these bytes more, and not all yet.
    pub(crate) fn add_loaded(&mut self, more: &[u8])
        requires { leaves_loads (ask_of self.old) (length more.now) ≡ true }
        ensures { ask_of self.new ≡ with_loaded (ask_of self.old) more.now }
    {
        match self {
            WaitingAsk::Reads(block) => block.add(more),
            WaitingAsk::Access { .. } | WaitingAsk::Writes(_) => {}
        }
    }

    /// A block that is stored has so many bytes more stored, and not all yet.
    pub(crate) fn add_stored(&mut self, count: usize)
        requires { leaves_stores (ask_of self.old) count ≡ true }
        ensures { ask_of self.new ≡ with_stored (ask_of self.old) count }
    {
        match self {
            WaitingAsk::Writes(write) => write.add(count),
            WaitingAsk::Access { .. } | WaitingAsk::Reads(_) => {}
        }
    }

    /// It ends with this answer, which is the last of a block that was loaded if it gives all its bytes.
    pub(crate) fn end(self, answer: &Answer) -> Ended<A>
        requires { goes_on (ask_of self) answer.now ≡ false }
        ensures tag { tag_text result.tag ≡ tag_of (ask_of self) }
        ensures bytes { option_map (λ bytes. bytes.items) result.bytes ≡ all_bytes (ask_of self) answer.now }
    {
        match self {
            WaitingAsk::Access { tag, asked: _ } => Ended { tag, bytes: None },
            WaitingAsk::Reads(block) => block.end(answer),
            WaitingAsk::Writes(write) => Ended {
                tag: write.tag,
                bytes: None,
            },
        }
    }
}
