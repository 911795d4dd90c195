//! A step whose envelopes come as a list, for whoever carries them by other means than an outbox of its own.
ghost use Rattle.std.specs.Prelude.{◌≡◌, false, true, IfOk, OnErr, map};
ghost use Rattle.shm_model.specs.Step.{step};
ghost use Rattle.shm_parts.specs.Message.{envelope_of};
ghost use Rattle.shm_site.specs.Site.{SameSeat, site_of, stepped};
ghost use Rattle.shm_site.specs.Step.{input_of, is_foreign, may_grow};

use crate::site::Site;
use crate::site_input::Input;
use shm_model::Answer;
use shm_parts::Envelope;
use std::alloc::{AllocError, Allocator, Global};

/// A step's outcome: what the site answers, and the envelopes that it sends, in order.
#[derive(Drop)]
pub struct Made<A: Allocator + Copy = Global> {
    pub answer: Answer,
    pub sent: Vec<Envelope<A>, A>,
}

impl<A: Allocator + Copy> Site<A> {
    /// Makes one step of an input that the site doesn't refuse, and lists what is sent. Where memory is refused the input is spent.
    pub fn step_spending(&mut self, input: Input<A>) -> Result<Made<A>, AllocError>
        requires { is_foreign self.old.sites self.old.me (input_of input) ≡ false }
        ensures step { IfOk result (λ made. step self.old.sites self.old.me (site_of self.old) (input_of input)
            ≡ stepped self.new made.answer (map envelope_of made.sent.items)) }
        ensures memory { OnErr result (may_grow self.old.sites self.old.me (site_of self.old) (input_of input) ≡ true) }
        ensures refused { OnErr result (site_of self.new ≡ site_of self.old) }
        ensures seat { SameSeat self.old self.new }
    {
        let mut sent = Vec::new(self.alloc);
        match self.step_proper(input, &mut sent) {
            Ok(answer) => Ok(Made { answer, sent }),
            Err(envelope) => Err(spend(envelope)),
        }
    }
}

/// Gives up the envelope that came back.
fn spend<A: Allocator + Copy>(envelope: Option<Envelope<A>>) -> AllocError {
    drop(envelope);
    AllocError
}
