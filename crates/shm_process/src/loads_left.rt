ghost use Rattle.std.specs.Prelude.{◌+◌, ◌^◌, ◌<◌, ◌≤◌};

use crate::recorded_steps::Rest;
use crate::step_cause::Cause;
use shm_model::Asked;
use shm_place::SiteId;
use shm_wire::{Ask, Line, Question, Tag};
use std::alloc::Allocator;

/// Loads of bytes one after another, the first at `offset`: those of a recorded block that are still to be made.
#[derive(Drop)]
pub(crate) struct LoadsLeft {
    pub(crate) site: SiteId,
    pub(crate) tag: Tag,
    pub(crate) at: u32,
    pub(crate) offset: u32,
    pub(crate) count: u32,
    ghost some: { 0 < count },
    ghost offsets: { offset + count ≤ 2 ^ 32 },
}

impl LoadsLeft {
    ghost use Rattle.std.specs.Prelude.{◌≡◌, ◌∷◌};
    ghost use Rattle.shm_process.specs.CauseOf.{cause_of};
    ghost use Rattle.shm_process.specs.StepsOf.{loads_left, rest_left};

    /// The next load, and what is left then.
    #[tactic(auto, using(crate::proofs::StepsLeft::loads_first, crate::proofs::StepsLeft::loads_last))]
    pub(crate) fn take<A: Allocator + Copy>(self) -> (Cause<A>, Rest<A>)
        ensures { loads_left self ≡ cause_of result.0 ∷ rest_left result.1 }
    {
        let LoadsLeft {
            site,
            tag,
            at,
            offset,
            count,
        } = self;
        let asked = Question::Access(Asked::Load { at, offset });
        let load = Cause::Line(Line::Ask(Ask { site, tag, asked }));
        if count == 1 {
            return (load, Rest::Nothing);
        }
        let left = LoadsLeft {
            site,
            tag,
            at,
            offset: offset + 1,
            count: count - 1,
        };
        (load, Rest::Loads(left))
    }
}
