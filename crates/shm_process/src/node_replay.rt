//! Restarts, and steps that are made again from what was recorded of them.
ghost use Rattle.std.specs.Prelude.{◌≡◌, ◌<◌, false, true, is_some, max, option_map, unwrap_or, IfOk, IfSome, OnErr, OnOk, Some};
ghost use Rattle.shm_model.specs.Basics.{greatest};
ghost use Rattle.shm_process.specs.Cause.{IsCause, OfRestart};
ghost use Rattle.shm_process.specs.CauseOf.{cause_of};
ghost use Rattle.shm_process.specs.Node.{stepped};
ghost use Rattle.shm_process.specs.NodeOf.{heard_of, node_of, said_of};
ghost use Rattle.shm_process.specs.Recorded.{entries_from, replayed_all, replayed_entry};
ghost use Rattle.shm_process.specs.StepsOf.{steps_left};
ghost use Rattle.shm_process.specs.Waiting.{after_restart, heard_again, replayed, said_restart};
ghost use Rattle.shm_site.specs.Step.{input_of, is_foreign};

use crate::build_step_output::take_tag;
use crate::interpreted_line::Heard;
use crate::mapping_list::change_mapped;
use crate::node::Node;
use crate::recorded_steps::Steps;
use crate::step_cause::Cause;
use crate::step_output::Said;
use shm_site::{Input, Made};
use std::alloc::{AllocError, Allocator};

impl<A: Allocator + Copy> Node<A> {
    /// Restarts the site, one step, which is recorded as `restart`. It forgets the asks that wait: their callers ask again. An outstanding
    /// segment call stays, and its caller gets the reply.
    pub fn restart(&mut self) -> Result<Said<A>, AllocError>
        requires { (node_of self.old).clock < greatest }
        ensures said { IfOk result (λ said. said_of OfRestart said ≡ said_restart (node_of self.old)) }
        ensures after { OnOk result (node_of self.new ≡ after_restart (node_of self.old)) }
        ensures refused { OnErr result (node_of self.new ≡ node_of self.old) }
    {
        let clock = self.next_clock(0);
        let made = self.site.step_spending(Input::Restart)?;
        self.waiting.clear();
        Ok(self.say(clock, None, false, made, None))
    }

    /// Makes the step that was recorded under this clock and of this cause, and says nothing. `false`: no such step can be the site's next,
    /// and nothing changed. Asks don't wait here, and no line is counted.
    pub fn replay(&mut self, clock: u64, cause: Cause<A>) -> Result<bool, AllocError>
        ensures made { IfOk result (λ made. made ≡ is_some (replayed (node_of self.old) clock (cause_of cause))) }
        ensures after { OnOk result (node_of self.new ≡ unwrap_or (replayed (node_of self.old) clock (cause_of cause)) (node_of self.old)) }
        ensures refused { OnErr result (node_of self.new ≡ node_of self.old) }
    {
        let Some(heard) = self.hear_again(cause)? else {
            return Ok(false);
        };
        if self.next_clock(heard.source) != clock {
            return Ok(false);
        }
        self.remake(heard)?;
        Ok(true)
    }

    /// Makes all steps that an entry records. `false`: they can't be the site's next ones; then some of them may have been made.
    pub fn replay_entry(&mut self, clock: u64, cause: Cause<A>) -> Result<bool, AllocError>
        requires { IsCause (cause_of cause) }
        ensures made { IfOk result (λ made. made ≡ is_some (replayed_entry (node_of self.old) (record { clock = clock; cause = cause_of cause }))) }
        ensures after { IfOk result (λ made. made ≡ true → Some (node_of self.new) ≡ replayed_entry (node_of self.old) (record { clock = clock; cause = cause_of cause })) }
    {
        let mut steps = Steps::of(self.alloc, cause);
        self.replay_steps(clock, &mut steps)
    }

    /// Makes these steps again, the first under this clock and each other one under the next.
    fn replay_steps(&mut self, first: u64, steps: &mut Steps<A>) -> Result<bool, AllocError>
        ensures made { IfOk result (λ made. made ≡ is_some (replayed_all (node_of self.old) (entries_from first (steps_left steps.old)))) }
        ensures after { IfOk result (λ made. made ≡ true → Some (node_of self.new) ≡ replayed_all (node_of self.old) (entries_from first (steps_left steps.old))) }
    {
        let mut next = Some(first);
        'steps: while let Some(cause) = steps.next() {
            let Some(clock) = next else {
                return Ok(false);
            };
            if !self.replay(clock, cause)? {
                return Ok(false);
            }
            next = clock.checked_add(1);
        }
        Ok(true)
    }

    /// The input that the cause of a recorded step brought to the site.
    fn hear_again(&self, cause: Cause<A>) -> Result<Option<Heard<A>>, AllocError>
        ensures heard { IfOk result (λ heard. option_map heard_of heard ≡ heard_again (node_of self.now) (cause_of cause)) }
        ensures proper { IfOk result (λ heard. IfSome heard (λ h. is_foreign self.now.sites self.now.me (input_of h.input) ≡ false)) }
        ensures early { IfOk result (λ heard. IfSome heard (λ h. max self.now.clock h.source < greatest)) }
    {
        match cause {
            Cause::Line(line) => self.hear(line),
            Cause::Restart => Ok(self.hear_restart()),
        }
    }

    fn hear_restart(&self) -> Option<Heard<A>>
        ensures heard { option_map heard_of result ≡ heard_again (node_of self.now) OfRestart }
        ensures proper { IfSome result (λ h. is_foreign self.now.sites self.now.me (input_of h.input) ≡ false) }
        ensures early { IfSome result (λ h. max self.now.clock h.source < greatest) }
    {
        if self.is_late(0) {
            return None;
        }
        Some(Heard {
            input: Input::Restart,
            source: 0,
            tag: None,
            waits: None,
            mapped: None,
        })
    }

    /// Makes the step again, and says nothing.
    fn remake(&mut self, heard: Heard<A>) -> Result<(), AllocError>
        requires proper { is_foreign self.old.sites self.old.me (input_of heard.input) ≡ false }
        requires early { max self.old.clock heard.source < greatest }
        ensures after { OnOk result (node_of self.new ≡ stepped (node_of self.old) (heard_of heard)) }
        ensures refused { OnErr result (node_of self.new ≡ node_of self.old) }
    {
        let Heard {
            input,
            source,
            tag,
            waits: _,
            mapped,
        } = heard;
        let clock = self.next_clock(source);
        let Made { answer, sent: _ } = self.site.step_spending(input)?;
        self.clock = clock;
        self.steps += 1;
        take_tag(false, tag, &mut self.caller, &answer);
        change_mapped(&mut self.mapped, mapped);
        Ok(())
    }
}
