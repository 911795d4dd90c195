//! Steps of one site of the world.
ghost use Rattle.std.specs.Prelude.{◌≡◌, ◌<◌, ◌≤◌, ℕ, false, true, IfErr, IfNone, IfOk, IfSome, OnErr};
ghost use Rattle.shm_model.specs.Basics.{max_sent};
ghost use Rattle.shm_model.specs.Message as input;
ghost use Rattle.shm_model.specs.World as model;
ghost use Rattle.shm_parts.specs.Message.{envelope_of};
ghost use Rattle.shm_site.specs.Step.{input_of, is_fault, is_foreign, is_refused};
ghost use Rattle.shm_world.specs.Network.{StandsAt};
ghost use Rattle.shm_world.specs.Steps.{Went};
ghost use Rattle.shm_world.specs.World.{StandsFor, input_may_grow};

use crate::world::World;
use shm_model::refusal::{NO_SUCH_SITE, NUMBERS_USED_UP};
use shm_model::{Answer, MAX_SENT};
use shm_parts::Envelope;
use shm_place::SiteId;
use shm_site::Input;
use std::alloc::{AllocError, Allocator};

impl<A: Allocator + Copy> World<A> {
    /// A load at a site, if there is one and envelopes have numbers left. Where memory is refused nothing changes.
    #[inline(always)]
    pub(crate) fn load(&mut self, site: SiteId, at: u32, offset: u32) -> Result<Answer, AllocError>
        ensures step { (w : model.World) → StandsFor self.old w → IfOk result (λ answer. Went self.new (model.step_at w site (input.Load at offset)) answer) }
        ensures refused { (w : model.World) → StandsFor self.old w → OnErr result (StandsFor self.new w) }
        ensures memory { (w : model.World) → StandsFor self.old w → OnErr result (is_fault (model.step_at w site (input.Load at offset)).done.answer ≡ true) }
    {
        if let Some(answer) = self.refusal(site) {
            return Ok(answer);
        }
        self.members.load(site, at, offset, &mut self.network)
    }

    /// A store at a site, if there is one and envelopes have numbers left. Where memory is refused nothing changes.
    #[inline(always)]
    pub(crate) fn store(
        &mut self,
        site: SiteId,
        at: u32,
        offset: u32,
        byte: u8,
    ) -> Result<Answer, AllocError>
        ensures step { (w : model.World) → StandsFor self.old w
            → IfOk result (λ answer. Went self.new (model.step_at w site (input.Store at offset byte)) answer) }
        ensures refused { (w : model.World) → StandsFor self.old w → OnErr result (StandsFor self.new w) }
        ensures memory { (w : model.World) → StandsFor self.old w
            → OnErr result (is_fault (model.step_at w site (input.Store at offset byte)).done.answer ≡ true) }
    {
        if let Some(answer) = self.refusal(site) {
            return Ok(answer);
        }
        self.members
            .store(site, at, offset, byte, &mut self.network)
    }

    /// Steps a site, if there is one and envelopes have numbers left, at an input that hands no envelope over. Where memory is refused
    /// nothing changes.
    #[inline(always)]
    pub(crate) fn act(&mut self, site: SiteId, input: Input<A>) -> Result<Answer, AllocError>
        requires { (sites me : ℕ) → is_foreign sites me (input_of input) ≡ false }
        ensures step { (w : model.World) → StandsFor self.old w → IfOk result (λ answer. Went self.new (model.step_at w site (input_of input)) answer) }
        ensures refused { (w : model.World) → StandsFor self.old w → OnErr result (StandsFor self.new w) }
        ensures memory { (w : model.World) → StandsFor self.old w
            → OnErr result (input_may_grow (input_of input) (model.step_at w site (input_of input)).done.answer ≡ true) }
    {
        if let Some(answer) = self.refusal(site) {
            return Ok(answer);
        }
        match self.members.step(site, input, &mut self.network) {
            Ok(answer) => Ok(answer),
            Err(back) => Err(give_up(back)),
        }
    }

    /// Hands the envelope to its site, if there is one and envelopes have numbers left. Where memory is refused it comes back, and nothing
    /// changes.
    #[inline(always)]
    pub(crate) fn hand(&mut self, envelope: Envelope<A>) -> Result<Answer, Envelope<A>>
        ensures step { (w : model.World) → StandsFor self.old w
            → IfOk result (λ answer. Went self.new (model.step_at w (envelope_of envelope).to (input.Deliver (envelope_of envelope))) answer) }
        ensures back { IfErr result (λ back. envelope_of back ≡ envelope_of envelope) }
        ensures refused { (w : model.World) → StandsFor self.old w → OnErr result (StandsFor self.new w) }
        ensures memory { (w : model.World) → StandsFor self.old w
            → OnErr result (is_refused (model.step_at w (envelope_of envelope).to (input.Deliver (envelope_of envelope))).done.answer ≡ false) }
        ensures places { OnErr result ((k at : ℕ) → StandsAt k at self.old.network → StandsAt k at self.new.network) }
    {
        if let Some(answer) = self.refusal(envelope.to) {
            return Ok(answer);
        }
        self.members.deliver(envelope, &mut self.network)
    }

    /// Why no site is stepped, if none is: there is no such site, or envelopes have no numbers left.
    #[inline(always)]
    pub(crate) fn refusal(&self, site: SiteId) -> Option<Answer>
        ensures refused { IfSome result (λ answer. (w : model.World) (i : input.Input) → StandsFor self.now w
            → model.step_at w site i ≡ model.unstepped w site answer) }
        ensures site { IfNone result (site < self.now.members.count) }
        ensures numbers { IfNone result (self.now.network.envelopes.next ≤ max_sent) }
        ensures refuses { IfSome result (λ answer. is_refused answer ≡ true) }
    {
        if site.0 >= self.members.count.count() {
            return Some(Answer::Refused(NO_SUCH_SITE));
        }
        if self.network.sent() > MAX_SENT {
            return Some(Answer::Refused(NUMBERS_USED_UP));
        }
        None
    }
}

/// Gives up the envelope that came back where memory was refused.
fn give_up<A: Allocator + Copy>(back: Option<Envelope<A>>) -> AllocError {
    drop(back);
    AllocError
}
