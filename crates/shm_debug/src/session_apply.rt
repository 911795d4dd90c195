//! One more event.
ghost use Rattle.std.specs.Prelude.{◌≡◌, ◌<◌, List, [], ◌∷◌, ◌++◌, true, IfOk, OnErr, OnOk};
ghost use Rattle.std.specs.Vec.{vec_capacity, vec_len};
ghost use Rattle.shm_model.specs.World as model;
ghost use Rattle.shm_model.specs.declared.event.Event.{Event};
ghost use Rattle.shm_debug.specs.Said.{said_to_event};
ghost use Rattle.shm_debug.specs.Standing.{with_event, world_of};
ghost use Rattle.shm_text.specs.Text.{line_text};
ghost use Rattle.shm_world.specs.World.{StandsFor, may_grow};

use crate::printed_text::tell_answer_line;
use crate::session::Session;
use shm_text::Text;
use shm_world::{Answer, Event, World};
use std::alloc::{AllocError, Allocator};

impl<A: Allocator + Copy> Session<A> {
    /// Makes one more event, which then stands. Where memory is refused, it drops all that is kept for going back, and tries once more with
    /// nothing kept of the event. If that is refused too, all that stands is as it was. A load or store that has the right needs memory for
    /// the list of the events alone, and so does a restart or a loss.
    pub fn apply(&mut self, event: Event) -> Result<Answer, AllocError>
        ensures answered { IfOk result (λ answer. answer ≡ (model.next (world_of self.old) event).done.answer) }
        ensures ok { OnOk result (self.new ≡ with_event self.old event) }
        ensures err { OnErr result (self.new ≡ self.old) }
    {
        if self.undos.wants_next() {
            return self.make_kept(&event);
        }
        let made = self.make_unkept(&event);
        if made.is_ok() {
            return made;
        }
        self.make_again(&event)
    }

    /// Makes one more event, as [`Session::apply`] does, and appends its line.
    // The answer is told where it was made: handing it on would copy it at each step.
    #[inline(always)]
    pub(crate) fn apply_and_tell(
        &mut self,
        event: &Event,
        number: u64,
        output: &mut Text<A>,
    ) -> Result<(), AllocError>
        ensures told { OnOk result (output.new ≡ output.old ++ line_text number (said_to_event self.old event.now)) }
        ensures next { OnOk result (self.new ≡ with_event self.old event.now) }
        ensures err { OnErr result (output.new ≡ output.old) }
    {
        if self.undos.wants_next() {
            return self.apply_then_tell(event, number, output);
        }
        let Ok(()) = self.events.reserve(1) else {
            return self.apply_then_tell(event, number, output);
        };
        let first = self.world.sent();
        self.undos.miss();
        match &self.world.step(*event) {
            Ok(answer) => {
                self.events.push_reserved(*event);
                tell_answer_line(output, number, answer, &self.world, first)
            }
            Err(_) => self.apply_then_tell(event, number, output),
        }
    }

    /// Makes one more event, and then appends its line.
    #[inline(never)]
    fn apply_then_tell(
        &mut self,
        event: &Event,
        number: u64,
        output: &mut Text<A>,
    ) -> Result<(), AllocError>
        ensures told { OnOk result (output.new ≡ output.old ++ line_text number (said_to_event self.old event.now)) }
        ensures next { OnOk result (self.new ≡ with_event self.old event.now) }
        ensures err { OnErr result (output.new ≡ output.old) }
    {
        let first = self.world.sent();
        match &self.apply(*event) {
            Ok(answer) => tell_answer_line(output, number, answer, &self.world, first),
            Err(_) => Err(AllocError),
        }
    }

    /// Makes the event, and keeps what undoes it; where memory is refused, tries once more without.
    // Out of line, as the next, so that the common way stays short.
    #[inline(never)]
    fn make_kept(&mut self, event: &Event) -> Result<Answer, AllocError>
        ensures answered { IfOk result (λ answer. answer ≡ (model.next (world_of self.old) event.now).done.answer) }
        ensures ok { OnOk result (self.new ≡ with_event self.old event.now) }
        ensures err { OnErr result (self.new ≡ self.old) }
    {
        let made = self.make_and_keep(event);
        if made.is_ok() {
            return made;
        }
        self.make_again(event)
    }

    /// The event once more, with nothing kept for going back.
    #[inline(never)]
    fn make_again(&mut self, event: &Event) -> Result<Answer, AllocError>
        ensures answered { IfOk result (λ answer. answer ≡ (model.next (world_of self.old) event.now).done.answer) }
        ensures ok { OnOk result (self.new ≡ with_event self.old event.now) }
        ensures err { OnErr result (self.new ≡ self.old) }
    {
        self.give_up_copies();
        self.make_unkept(event)
    }

    /// The event, of which nothing is kept.
    #[inline(always)]
    fn make_unkept(&mut self, event: &Event) -> Result<Answer, AllocError>
        ensures answered { IfOk result (λ answer. answer ≡ (model.next (world_of self.old) event.now).done.answer) }
        ensures ok { OnOk result (self.new ≡ with_event self.old event.now) }
        ensures err { OnErr result (self.new ≡ self.old) }
    {
        self.undos.miss();
        step_and_push(&mut self.world, &mut self.events, event)
    }

    /// The event, and what takes it back is kept, if there is memory.
    fn make_and_keep(&mut self, event: &Event) -> Result<Answer, AllocError>
        ensures answered { IfOk result (λ answer. answer ≡ (model.next (world_of self.old) event.now).done.answer) }
        ensures ok { OnOk result (self.new ≡ with_event self.old event.now) }
        ensures err { OnErr result (self.new ≡ self.old) }
    {
        let undo = self.world.undo_for(event);
        let answer = step_and_push(&mut self.world, &mut self.events, event)?;
        match undo {
            Ok(undo) => self.undos.keep(undo),
            Err(_) => self.undos.miss(),
        }
        Ok(answer)
    }

    /// Gives up all that was kept for going back.
    fn give_up_copies(&mut self)
        ensures { self.new ≡ self.old }
    {
        self.checkpoints.clear();
        self.undos.clear();
    }
}

/// Steps the world by the event, and joins the answer to the others.
#[inline(always)]
fn step_and_push<A: Allocator + Copy>(
    world: &mut World<A>,
    events: &mut Vec<Event, A>,
    event: &Event,
) -> Result<Answer, AllocError>
    ensures answered { (w : model.World) → StandsFor world.old w → IfOk result (λ answer. answer ≡ (model.next w event.now).done.answer) }
    ensures led { (o : model.Opening) (before : List Event) → StandsFor world.old (model.run o before).world
        → OnOk result (StandsFor world.new (model.run o (before ++ event.now ∷ [])).world) }
    ensures joined { OnOk result (events.new.items ≡ events.old.items ++ event.now ∷ []) }
    ensures refused { (w : model.World) → StandsFor world.old w → OnErr result (StandsFor world.new w) }
    ensures same { OnErr result (events.new.items ≡ events.old.items) }
    ensures memory { (w : model.World) → StandsFor world.old w → vec_len events.old < vec_capacity events.old
        → OnErr result (may_grow event.now (model.next w event.now).done.answer ≡ true) }
{
    events.reserve(1)?;
    let answered = world.step(*event);
    if answered.is_ok() {
        events.push_reserved(*event);
    }
    answered
}
