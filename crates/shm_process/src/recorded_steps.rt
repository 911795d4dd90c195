//! The steps that a recorded line stands for.
use crate::loads_left::LoadsLeft;
use crate::step_cause::Cause;
use crate::stores_left::StoresLeft;
use crate::unmap_left::UnmapLeft;
use shm_wire::{Ask, Line, Question, UnmapAsk, WriteAsk};
use std::alloc::{Allocator, Global};
use std::mem;

/// Steps that a recorded line stands for and that are still to be made, one after another.
#[derive(Drop)]
pub struct Steps<A: Allocator + Copy = Global> {
    rest: Rest<A>,
}

/// What is left of them.
#[derive(Drop)]
pub(crate) enum Rest<A: Allocator + Copy = Global> {
    Nothing,
    /// A line that stands for one step, or a restart.
    One(Cause<A>),
    Loads(LoadsLeft),
    Stores(StoresLeft<A>),
    /// Bytes that an unmap brings, and then its own step.
    Unmap(UnmapLeft<A>),
}

impl<A: Allocator + Copy> Steps<A> {
    ghost use Rattle.std.specs.Prelude.{◌≡◌, [], ◌∷◌, IfNone, IfSome};
    ghost use Rattle.shm_process.specs.Cause.{IsCause};
    ghost use Rattle.shm_process.specs.CauseOf.{cause_of};
    ghost use Rattle.shm_process.specs.Causes.{causes_of};
    ghost use Rattle.shm_process.specs.StepsOf.{steps_left};

    /// The steps of this cause.
    pub fn of(alloc: A, cause: Cause<A>) -> Steps<A>
        requires { IsCause (cause_of cause) }
        ensures { steps_left result ≡ causes_of (cause_of cause) }
    {
        Steps {
            rest: Rest::of(alloc, cause),
        }
    }

    /// Takes the next of them.
    pub fn next(&mut self) -> Option<Cause<A>>
        ensures some { IfSome result (λ cause. steps_left self.old ≡ cause_of cause ∷ steps_left self.new) }
        ensures none { IfNone result (steps_left self.old ≡ []) }
    {
        let rest = mem::replace(&mut self.rest, Rest::Nothing);
        let (cause, rest) = rest.take()?;
        self.rest = rest;
        Some(cause)
    }
}

impl<A: Allocator + Copy> Rest<A> {
    ghost use Rattle.std.specs.Prelude.{◌≡◌, [], ◌∷◌, IfNone, IfSome};
    ghost use Rattle.shm_process.specs.Cause.{IsCause};
    ghost use Rattle.shm_process.specs.CauseOf.{cause_of};
    ghost use Rattle.shm_process.specs.Causes.{asked_causes, causes_of, stores};
    ghost use Rattle.shm_process.specs.StepsOf.{rest_left};
    ghost use Rattle.shm_wire.specs.Asks.{IsAsk, ask_of};
    ghost use Rattle.shm_wire.specs.TagOf.{tag_text};
    ghost use Rattle.shm_wire.specs.WriteOf.{write_of};
    ghost use Rattle.shm_wire.specs.Writes.{IsWrite};

    fn of(alloc: A, cause: Cause<A>) -> Rest<A>
        requires { IsCause (cause_of cause) }
        ensures { rest_left result ≡ causes_of (cause_of cause) }
    {
        match cause {
            Cause::Line(Line::Envelope(sent)) => Rest::One(Cause::Line(Line::Envelope(sent))),
            Cause::Line(Line::Ask(ask)) => Rest::of_ask(ask),
            Cause::Line(Line::Write(write)) => Rest::of_write(write),
            Cause::Line(Line::Unmap(ask)) => UnmapLeft::of(alloc, ask),
            Cause::Restart => Rest::One(Cause::Restart),
        }
    }

    fn of_ask(ask: Ask) -> Rest<A>
        requires { IsAsk (ask_of ask) }
        ensures { rest_left result ≡ asked_causes (ask_of ask) ask.asked }
    {
        match ask.asked {
            Question::Read { at, offset, length } => Rest::Loads(LoadsLeft {
                site: ask.site,
                tag: ask.tag,
                at,
                offset,
                count: length,
            }),
            _ => Rest::One(Cause::Line(Line::Ask(ask))),
        }
    }

    fn of_write(write: WriteAsk<A>) -> Rest<A>
        requires { IsWrite (write_of write) }
        ensures { rest_left result ≡ stores write.site (tag_text write.tag) write.at write.offset write.bytes.items }
    {
        Rest::Stores(StoresLeft { write, made: 0 })
    }

    /// The next step, and what is left then.
    fn take(self) -> Option<(Cause<A>, Rest<A>)>
        ensures some { IfSome result (λ next. rest_left self ≡ cause_of next.0 ∷ rest_left next.1) }
        ensures none { IfNone result (rest_left self ≡ []) }
    {
        match self {
            Rest::Nothing => None,
            Rest::One(cause) => Some((cause, Rest::Nothing)),
            Rest::Loads(left) => Some(left.take()),
            Rest::Stores(left) => Some(left.take()),
            Rest::Unmap(left) => Some(left.take()),
        }
    }
}
