//! Asks that wait for their right, and are made again.
ghost use Rattle.std.specs.Prelude.{◌≡◌, ◌<◌, true, map, max, length, option_map, None, IfOk, IfSome, OnErr, OnOk, Some, if◌then◌else◌, vec_len};
ghost use Rattle.shm_model.specs.Basics.{greatest};
ghost use Rattle.shm_model.specs.Receipt.{access_of};
ghost use Rattle.shm_model.specs.Step.{step};
ghost use Rattle.shm_parts.specs.Message.{envelope_of};
ghost use Rattle.shm_process.specs.Access.{is_access, is_waiting};
ghost use Rattle.shm_process.specs.AskOf.{ask_of};
ghost use Rattle.shm_process.specs.WaitingAsks.{all_bytes, ask_in, goes_on, next_access, tag_of, waiting_after};
ghost use Rattle.shm_process.specs.NodeOf.{again_of, node_of};
ghost use Rattle.shm_process.specs.Waiting.{after_again, again_at, can_be_made, ready, said_again, says_at};
ghost use Rattle.shm_site.specs.Site.{SameSeat, site_of, stepped};
ghost use Rattle.shm_site.specs.Step.{input_of};
ghost use Rattle.shm_wire.specs.TagOf.{tag_text};

use crate::node::Node;
use crate::retried_step::Again;
use crate::waiting_ask::{Ended, WaitingAsk};
use shm_model::Asked;
use shm_site::{Answer, Input, Made, Site};
use shm_wire::Tag;
use std::alloc::{AllocError, Allocator};

impl<A: Allocator + Copy> Node<A> {
    /// Makes one step of the oldest waiting ask that can be made or refused now, or has to ask for its right again: the access, or a
    /// block's next load. `None`: there is none. Where memory is refused the node is as before.
    ///
    /// Call this after each line, until there is none.
    pub fn again(&mut self) -> Result<Option<Again<A>>, AllocError>
        ensures said { IfOk result (λ again. option_map again_of again ≡ said_again (node_of self.old)) }
        ensures after { OnOk result (node_of self.new ≡ after_again (node_of self.old)) }
        ensures refused { OnErr result (node_of self.new ≡ node_of self.old) }
    {
        let Some(at) = self.ready() else {
            return Ok(None);
        };
        let again = self.make_at(at)?;
        Ok(Some(again))
    }

    /// The place of the oldest waiting ask that can be made or refused now, or has to ask for its right again, while there is a clock for a step.
    pub(crate) fn ready(&self) -> Option<usize>
        ensures ready { result ≡ ready (node_of self.now) }
        ensures within { IfSome result (λ at. at < vec_len self.now.waiting) }
        ensures early { IfSome result (λ at. max self.now.clock 0 < greatest) }
    {
        if self.is_late(0) {
            return None;
        }
        'asks: for at in 0..self.waiting.len() {
            if self.can_be_made(at) {
                return Some(at);
            }
        }
        None
    }

    /// Checks that the next access of the ask at this place, its own or a block's next one, neither waits for a right that was asked for before,
    /// nor would pass by what is mapped.
    fn can_be_made(&self, at: usize) -> bool
        requires { at < vec_len self.now.waiting }
        ensures { result ≡ can_be_made (node_of self.now) (ask_in (node_of self.now).waiting at) }
    {
        let (_, asked) = self.next_of(at);
        self.passing(asked).is_none() && !self.would_wait(asked)
    }

    /// Checks that the access would wait for a right that was asked for before.
    fn would_wait(&self, asked: Asked) -> bool
        ensures { result ≡ is_waiting (step (node_of self.now).sites (node_of self.now).me (node_of self.now).site (access_of asked)).answer }
    {
        match asked {
            Asked::Load { at, offset } => self.site.load_waits(at, offset),
            Asked::Store { at, offset, .. } => self.site.store_waits(at, offset),
        }
    }

    /// Makes the next access of the ask at this place. Where memory is refused the node is as before.
    pub(crate) fn make_at(&mut self, at: usize) -> Result<Again<A>, AllocError>
        requires at { at < vec_len self.old.waiting }
        requires early { max self.old.clock 0 < greatest }
        ensures said { IfOk result (λ again. again_of again ≡ says_at (node_of self.old) at) }
        ensures after { OnOk result (node_of self.new ≡ again_at (node_of self.old) at) }
        ensures refused { OnErr result (node_of self.new ≡ node_of self.old) }
    {
        let (tag, asked) = self.next_of(at);
        let clock = self.next_clock(0);
        let made = step_access(&mut self.site, Input::of(asked))?;
        let stays = goes_on_at(self.waiting.as_slice(), at, &made.answer);
        let (told, block) = go_on_or_end(&mut self.waiting, at, stays, &made.answer);
        let said = self.say(clock, told, stays, made, block);
        Ok(Again { said, tag, asked })
    }

    /// The tag and the next access of the ask at this place.
    pub(crate) fn next_of(&self, at: usize) -> (Tag, Asked)
        requires { at < vec_len self.now.waiting }
        ensures tag { tag_text result.0 ≡ tag_of (ask_in (node_of self.now).waiting at) }
        ensures asked { result.1 ≡ next_access (ask_in (node_of self.now).waiting at) }
    {
        next_at(self.waiting.as_slice(), at)
    }
}

/// The tag and the next access of the ask at this place.
#[tactic(auto, using(crate::proofs::Asks::map_read))]
fn next_at<A: Allocator + Copy>(waiting: &[WaitingAsk<A>], at: usize) -> (Tag, Asked)
    requires { at < length waiting.now }
    ensures tag { tag_text result.0 ≡ tag_of (ask_in (map ask_of waiting.now) at) }
    ensures asked { result.1 ≡ next_access (ask_in (map ask_of waiting.now) at) }
{
    let ask = &waiting[at];
    (ask.tag(), ask.next_access())
}

/// One step of the site at an access. One that waits for what was asked already leaves the site as it is.
fn step_access<A: Allocator + Copy>(
    site: &mut Site<A>,
    input: Input<A>,
) -> Result<Made<A>, AllocError>
    requires { is_access (input_of input) ≡ true }
    ensures step { IfOk result (λ made. step site.old.sites site.old.me (site_of site.old) (input_of input)
        ≡ stepped site.new made.answer (map envelope_of made.sent.items)) }
    ensures refused { OnErr result (site_of site.new ≡ site_of site.old) }
    ensures seat { SameSeat site.old site.new }
{
    site.step_spending(input)
}

/// Checks that the ask at this place goes on waiting.
#[tactic(auto, using(crate::proofs::Asks::map_read))]
fn goes_on_at<A: Allocator + Copy>(waiting: &[WaitingAsk<A>], at: usize, answer: &Answer) -> bool
    requires { at < length waiting.now }
    ensures { result ≡ goes_on (ask_in (map ask_of waiting.now) at) answer.now }
{
    waiting[at].goes_on(answer)
}

/// The ask at this place goes on waiting, or leaves those that wait: then its tag, and all bytes of a block if this is the last of them.
#[tactic(auto, using(crate::proofs::Asks::map_read, crate::proofs::Asks::map_remove, crate::proofs::Asks::map_set))]
fn go_on_or_end<A: Allocator + Copy>(
    waiting: &mut Vec<WaitingAsk<A>, A>,
    at: usize,
    stays: bool,
    answer: &Answer,
) -> (Option<Tag>, Option<Vec<u8, A>>)
    requires at { at < vec_len waiting.old }
    requires stays { stays ≡ goes_on (ask_in (map ask_of waiting.old.items) at) answer.now }
    ensures after { map ask_of waiting.new.items ≡ waiting_after (map ask_of waiting.old.items) at answer.now }
    ensures tag { option_map tag_text result.0 ≡ (if stays then None else Some (tag_of (ask_in (map ask_of waiting.old.items) at))) }
    ensures whole { option_map (λ bytes. bytes.items) result.1 ≡ all_bytes (ask_in (map ask_of waiting.old.items) at) answer.now }
{
    if stays {
        waiting[at].go_on(answer);
        return (None, None);
    }
    let Ended { tag, bytes } = waiting.remove(at).end(answer);
    (Some(tag), bytes)
}
