//! Deliveries, repeats and losses of an envelope.
ghost use Rattle.std.specs.Prelude.{◌≡◌, false, true, IfOk, OnErr};
ghost use Rattle.shm_model.specs.Message as input;
ghost use Rattle.shm_model.specs.World as model;
ghost use Rattle.shm_parts.specs.Message.{envelope_of, holds_page};
ghost use Rattle.shm_site.specs.Step.{is_refused};
ghost use Rattle.shm_world.specs.Steps.{Went};
ghost use Rattle.shm_world.specs.World.{StandsFor};

use crate::world::World;
use shm_model::Answer;
use shm_model::refusal::{FOREIGN, NO_SUCH_MESSAGE};
use shm_parts::Envelope;
use std::alloc::{AllocError, Allocator};

impl<A: Allocator + Copy> World<A> {
    /// Hands the envelope of this number over; it is gone then, even where its site can't have been sent it. Where memory is refused it
    /// is on its way as before.
    #[inline(always)]
    pub(crate) fn deliver(&mut self, number: u64) -> Result<Answer, AllocError>
        ensures step { (w : model.World) → StandsFor self.old w → IfOk result (λ answer. Went self.new (model.deliver (model.live w number) w number) answer) }
        ensures refused { (w : model.World) → StandsFor self.old w → OnErr result (StandsFor self.new w) }
        ensures memory { (w : model.World) → StandsFor self.old w
            → OnErr result (is_refused (model.deliver (model.live w number) w number).done.answer ≡ false) }
    {
        let Some((place, envelope)) = self.network.take_out(number) else {
            return Ok(Answer::Refused(NO_SUCH_MESSAGE));
        };
        match self.hand(envelope) {
            Ok(answer) => {
                self.network.sweep();
                Ok(answer)
            }
            Err(envelope) => {
                self.network.put_back(place, envelope);
                Err(AllocError)
            }
        }
    }

    /// Hands a copy of the envelope of this number over. The envelope itself stays on its way.
    pub(crate) fn repeat(&mut self, number: u64) -> Result<Answer, AllocError>
        ensures step { (w : model.World) → StandsFor self.old w → IfOk result (λ answer. Went self.new (model.hand_over (model.live w number) w) answer) }
        ensures refused { (w : model.World) → StandsFor self.old w → OnErr result (StandsFor self.new w) }
        ensures memory { (w : model.World) → StandsFor self.old w → OnErr result (is_refused (model.hand_over (model.live w number) w).done.answer ≡ false) }
    {
        let Some(envelope) = self.network.envelope(number) else {
            return Ok(Answer::Refused(NO_SUCH_MESSAGE));
        };
        match envelope.copy() {
            Ok(copy) => self.hand(copy).map_err(|_| AllocError),
            Err(_) => self.answer_without_copy(envelope),
        }
    }

    /// The answer to a repeat of an envelope for whose bytes memory was refused: it may be refused anyway.
    fn answer_without_copy(&self, envelope: &Envelope<A>) -> Result<Answer, AllocError>
        requires { holds_page envelope.now.message ≡ true }
        ensures step { (w : model.World) → StandsFor self.now w
            → IfOk result (λ answer. Went self.now (model.step_at w (envelope_of envelope.now).to (input.Deliver (envelope_of envelope.now))) answer) }
        ensures memory { (w : model.World) → StandsFor self.now w
            → OnErr result (is_refused (model.step_at w (envelope_of envelope.now).to (input.Deliver (envelope_of envelope.now))).done.answer ≡ false) }
    {
        if let Some(answer) = self.refusal(envelope.to) {
            return Ok(answer);
        }
        if self.members.is_foreign(envelope) {
            return Ok(Answer::Refused(FOREIGN));
        }
        Err(AllocError)
    }

    /// Loses the envelope of this number. It takes no memory.
    pub(crate) fn lose(&mut self, number: u64) -> Answer
        ensures { (w : model.World) → StandsFor self.old w → Went self.new (model.lose (model.live w number) w number) result }
    {
        if self.network.lose(number) {
            Answer::Took
        } else {
            Answer::Refused(NO_SUCH_MESSAGE)
        }
    }
}
