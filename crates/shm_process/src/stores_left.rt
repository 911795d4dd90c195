ghost use Rattle.std.specs.Prelude.{◌+◌, ◌^◌, ◌<◌, ◌≤◌, vec_len};

use crate::recorded_steps::Rest;
use crate::step_cause::Cause;
use shm_model::Asked;
use shm_wire::{Ask, Line, Question, WriteAsk};
use std::alloc::{Allocator, Global};

/// A recorded block that is stored. Not all of its stores are made yet.
#[derive(Drop)]
pub(crate) struct StoresLeft<A: Allocator + Copy = Global> {
    pub(crate) write: WriteAsk<A>,
    /// How many of them were made.
    pub(crate) made: usize,
    ghost more: { made < vec_len write.bytes },
    ghost offsets: { write.offset + vec_len write.bytes ≤ 2 ^ 32 },
}

impl<A: Allocator + Copy> StoresLeft<A> {
    ghost use Rattle.std.specs.Prelude.{◌≡◌, ◌∷◌};
    ghost use Rattle.shm_process.specs.CauseOf.{cause_of};
    ghost use Rattle.shm_process.specs.StepsOf.{rest_left, stores_left};

    /// The next store, and what is left then.
    #[tactic(auto, using(crate::proofs::StepsLeft::stores_first, crate::proofs::StepsLeft::stores_none))]
    pub(crate) fn take(self) -> (Cause<A>, Rest<A>)
        ensures { stores_left self ≡ cause_of result.0 ∷ rest_left result.1 }
    {
        let StoresLeft { write, made } = self;
        let asked = Question::Access(Asked::Store {
            at: write.at,
            offset: write.offset + made as u32,
            byte: write.bytes[made],
        });
        let store = Cause::Line(Line::Ask(Ask {
            site: write.site,
            tag: write.tag,
            asked,
        }));
        if made + 1 == write.bytes.len() {
            return (store, Rest::Nothing);
        }
        let left = StoresLeft {
            write,
            made: made + 1,
        };
        (store, Rest::Stores(left))
    }
}
