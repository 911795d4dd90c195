use shm_model::{Asked, Request};
use shm_parts::Envelope;
use std::alloc::{Allocator, Global};

/// One input of a site.
#[derive(Drop)]
pub enum Input<A: Allocator + Copy = Global> {
    /// Load the byte at an offset of the segment that is attached at the number `at`.
    Load { at: u32, offset: u32 },
    Store { at: u32, offset: u32, byte: u8 },
    /// Begin a segment call.
    Begin(Request),
    /// The network hands an envelope over.
    Deliver(Envelope<A>),
    /// Time to send again what may be lost.
    Tick,
    /// The site stops and starts again, with what is stable.
    Restart,
}

impl<A: Allocator + Copy> Input<A> {
    ghost use Rattle.std.specs.Prelude.{◌≡◌, ℕ, false};
    ghost use Rattle.shm_model.specs.Receipt.{access, access_of, asked_of};
    ghost use Rattle.shm_site.specs.Step.{input_of, is_foreign};

    /// The input that makes this load or store.
    pub fn of(asked: Asked) -> Input<A>
        ensures input { input_of result ≡ access_of asked }
        ensures own { (sites me : ℕ) → is_foreign sites me (input_of result) ≡ false }
    {
        match asked {
            Asked::Load { at, offset } => Input::Load { at, offset },
            Asked::Store { at, offset, byte } => Input::Store { at, offset, byte },
        }
    }

    /// The load or store, where it is one.
    pub fn access(&self) -> Option<Asked>
        ensures { asked_of result ≡ access (input_of self.now) }
    {
        match self {
            Input::Load { at, offset } => Some(Asked::Load {
                at: *at,
                offset: *offset,
            }),
            Input::Store { at, offset, byte } => Some(Asked::Store {
                at: *at,
                offset: *offset,
                byte: *byte,
            }),
            _ => None,
        }
    }
}
