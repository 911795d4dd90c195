//! One step of a site: one case for each input.
ghost use Rattle.std.specs.Prelude.{◌≡◌, None, Some, Ok, false, true, IsOk, IsErr, IfOk, IfErr, OnErr};
ghost use Rattle.shm_model.specs.Step.{step};
ghost use Rattle.shm_parts.specs.Message.{envelope_of};
ghost use Rattle.shm_site.specs.Site.{StepsTo, Unchanged, site_of};
ghost use Rattle.shm_site.specs.Step.{envelope_if, fault_of, handed_envelope, input_of, is_foreign, may_grow};
ghost use Rattle.shm_site.specs.declared.step_error.StepFault.TheVariants as fault;

use crate::site::Site;
use crate::site_input::Input;
use crate::step_error::{StepError, StepFault};
use shm_model::Answer;
use shm_parts::{Envelope, Outbox};
use std::alloc::{AllocError, Allocator};

impl<A: Allocator + Copy> Site<A> {
    /// Makes one step: what is sent joins the outbox. Where it isn't made, site and outbox are as before and an envelope that was
    /// handed in comes back. A load or store that has the right takes no memory, nor does a restart, nor what is refused anyway.
    pub fn step<O: Outbox<Envelope<A>>>(
        &mut self,
        input: Input<A>,
        outbox: &mut O,
    ) -> Result<Answer, StepError<A>>
        ensures step { IfOk result (λ answer. StepsTo O.posted self.old self.new outbox.old outbox.new answer
            (step self.old.sites self.old.me (site_of self.old) (input_of input))) }
        ensures taken { IsOk result → is_foreign self.old.sites self.old.me (input_of input) ≡ false }
        ensures fault { IfErr result (λ e. e.fault ≡ fault_of (is_foreign self.old.sites self.old.me (input_of input))) }
        ensures memory { IfErr result (λ e. e.fault ≡ fault.OutOfMemory → may_grow self.old.sites self.old.me (site_of self.old) (input_of input) ≡ true) }
        ensures back { IfErr result (λ e. envelope_if e.envelope ≡ handed_envelope (input_of input)) }
        ensures refused { OnErr result (Unchanged O.posted self.old self.new outbox.old outbox.new) }
    {
        if self.refuses(&input) {
            return Err(StepError {
                fault: StepFault::Foreign,
                envelope: handed_envelope(input),
            });
        }
        match self.step_proper(input, outbox) {
            Ok(answer) => Ok(answer),
            Err(envelope) => Err(StepError {
                fault: StepFault::OutOfMemory,
                envelope,
            }),
        }
    }

    /// Checks that the input hands over an envelope that can't be for this site.
    fn refuses(&self, input: &Input<A>) -> bool
        ensures { result ≡ is_foreign self.now.sites self.now.me (input_of input.now) }
    {
        match input {
            Input::Deliver(envelope) => self.foreign(envelope),
            _ => false,
        }
    }

    /// Makes one step of an input that the site doesn't refuse as foreign: what is sent joins the outbox. Where memory is refused, site and
    /// outbox are as before and an envelope that was handed in comes back.
    #[inline(always)]
    pub fn step_proper<O: Outbox<Envelope<A>>>(
        &mut self,
        input: Input<A>,
        outbox: &mut O,
    ) -> Result<Answer, Option<Envelope<A>>>
        requires { is_foreign self.old.sites self.old.me (input_of input) ≡ false }
        ensures step { IfOk result (λ answer. StepsTo O.posted self.old self.new outbox.old outbox.new answer
            (step self.old.sites self.old.me (site_of self.old) (input_of input))) }
        ensures memory { OnErr result (may_grow self.old.sites self.old.me (site_of self.old) (input_of input) ≡ true) }
        ensures back { IfErr result (λ back. envelope_if back ≡ handed_envelope (input_of input)) }
        ensures refused { OnErr result (Unchanged O.posted self.old self.new outbox.old outbox.new) }
    {
        match input {
            Input::Load { at, offset } => or_none(self.load(at, offset, outbox)),
            Input::Store { at, offset, byte } => or_none(self.store(at, offset, byte, outbox)),
            Input::Begin(request) => or_none(self.begin(request, outbox)),
            Input::Deliver(envelope) => or_back(self.deliver_proper(envelope, outbox)),
            Input::Tick => or_none(self.tick(outbox)),
            Input::Restart => Ok(self.restart()),
        }
    }
}

/// The envelope that the input hands over.
fn handed_envelope<A: Allocator + Copy>(input: Input<A>) -> Option<Envelope<A>>
    ensures { envelope_if result ≡ handed_envelope (input_of input) }
{
    match input {
        Input::Deliver(envelope) => Some(envelope),
        _ => None,
    }
}

/// Memory was refused, and no envelope was handed in.
fn or_none<A: Allocator + Copy>(
    answer: Result<Answer, AllocError>,
) -> Result<Answer, Option<Envelope<A>>>
    ensures answer { IfOk result (λ a. answer ≡ Ok a) }
    ensures back { IfErr result (λ back. IsErr answer × (envelope_if back ≡ None)) }
{
    match answer {
        Ok(answer) => Ok(answer),
        Err(_) => Err(None),
    }
}

/// Memory was refused, and the envelope comes back.
fn or_back<A: Allocator + Copy>(
    answer: Result<Answer, Envelope<A>>,
) -> Result<Answer, Option<Envelope<A>>>
    ensures answer { IfOk result (λ a. answer ≡ Ok a) }
    ensures back { IfErr result (λ back. IfErr answer (λ envelope. envelope_if back ≡ Some (envelope_of envelope))) }
    ensures error { IsErr result → IsErr answer }
{
    match answer {
        Ok(answer) => Ok(answer),
        Err(envelope) => Err(Some(envelope)),
    }
}
