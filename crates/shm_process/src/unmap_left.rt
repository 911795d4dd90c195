ghost use Rattle.std.specs.Prelude.{◌<◌, All, drop};
ghost use Rattle.shm_process.specs.RunsLeft.{first_size};
ghost use Rattle.shm_wire.specs.UnmapOf.{unmap_in};
ghost use Rattle.shm_wire.specs.Unmaps.{IsRun};

use crate::recorded_steps::Rest;
use crate::step_cause::Cause;
use shm_model::Asked;
use shm_wire::{Ask, Line, Question, UnmapAsk};
use std::alloc::{Allocator, Global};

/// A recorded unmap. Not all bytes that it brings are stored yet.
#[derive(Drop)]
pub(crate) struct UnmapLeft<A: Allocator + Copy = Global> {
    alloc: A,
    ask: UnmapAsk<A>,
    /// The run of which bytes are stored now.
    run: usize,
    /// How many of its bytes were stored.
    made: usize,
    ghost runs: { All IsRun (unmap_in ask).runs },
    ghost more: { made < first_size (drop run (unmap_in ask).runs) },
}

impl<A: Allocator + Copy> UnmapLeft<A> {
    ghost use Rattle.std.specs.Prelude.{◌≡◌, ◌∷◌, []};
    ghost use Rattle.shm_process.specs.Cause.{OfLine};
    ghost use Rattle.shm_process.specs.CauseOf.{cause_of};
    ghost use Rattle.shm_process.specs.Causes.{bare, unmap_causes};
    ghost use Rattle.shm_process.specs.StepsOf.{rest_left, unmap_left};
    ghost use Rattle.shm_wire.specs.Line as stream;

    /// The steps of an unmap.
    pub(crate) fn of(alloc: A, ask: UnmapAsk<A>) -> Rest<A>
        requires { All IsRun (unmap_in ask).runs }
        ensures { rest_left result ≡ unmap_causes (unmap_in ask) }
    {
        if ask.runs.is_empty() {
            return Rest::One(Cause::Line(Line::Unmap(ask)));
        }
        Rest::Unmap(UnmapLeft {
            alloc,
            ask,
            run: 0,
            made: 0,
        })
    }

    /// The next store, and what is left then.
    pub(crate) fn take(self) -> (Cause<A>, Rest<A>)
        ensures { unmap_left self ≡ cause_of result.0 ∷ rest_left result.1 }
    {
        let store = self.next_store();
        (store, self.pass())
    }

    fn next_store(&self) -> Cause<A>
        ensures { unmap_left self.now ≡ cause_of result ∷ drop 1 (unmap_left self.now) }
    {
        let run = &self.ask.runs[self.run];
        let asked = Question::Try(Asked::Store {
            at: self.ask.at,
            offset: run.offset + self.made as u32,
            byte: run.bytes[self.made],
        });
        Cause::Line(Line::Ask(Ask {
            site: self.ask.site,
            tag: self.ask.tag,
            asked,
        }))
    }

    /// What is left behind the next store.
    fn pass(self) -> Rest<A>
        ensures { rest_left result ≡ drop 1 (unmap_left self) }
    {
        let UnmapLeft {
            alloc,
            ask,
            run,
            made,
        } = self;
        let size = ask.runs[run].bytes.len();
        if made + 1 < size {
            return Rest::Unmap(UnmapLeft {
                alloc,
                ask,
                run,
                made: made + 1,
            });
        }
        if run + 1 < ask.runs.len() {
            return Rest::Unmap(UnmapLeft {
                alloc,
                ask,
                run: run + 1,
                made: 0,
            });
        }
        let last = UnmapAsk {
            runs: Vec::new(alloc),
            ..ask
        };
        Rest::One(Cause::Line(Line::Unmap(last)))
    }
}
