//! A node takes a line.
ghost use Rattle.std.specs.Prelude.{◌≡◌, ◌<◌, ◌&&◌, false, is_some, map, max, None, option_map, IfOk, OnErr, OnOk, if◌then◌else◌, vec_capacity, vec_len};
ghost use Rattle.shm_model.specs.Basics.{greatest};
ghost use Rattle.shm_process.specs.Access.{is_open};
ghost use Rattle.shm_process.specs.AskOf.{ask_of};
ghost use Rattle.shm_process.specs.Cause.{Cause, OfLine};
ghost use Rattle.shm_process.specs.Node.{next_clock, says};
ghost use Rattle.shm_process.specs.NodeOf.{access_under, heard_of, node_of, said_of};
ghost use Rattle.shm_process.specs.Waiting.{after, after_unheard, counted, has_room, joined, joining, joins, passed_over, said, taken, with_ask};
ghost use Rattle.shm_site.specs.Step.{input_of, is_foreign};
ghost use Rattle.shm_wire.specs.Asks as asks;
ghost use Rattle.shm_wire.specs.Asks.{IsAsk};
ghost use Rattle.shm_wire.specs.Line as stream;
ghost use Rattle.shm_wire.specs.Line.{IsLine};
ghost use Rattle.shm_wire.specs.LineOf.{line_of};
ghost use Rattle.shm_wire.specs.SentOf.{sent_of};
ghost use Rattle.shm_wire.specs.TagOf.{tag_text};
ghost use Rattle.shm_wire.specs.UnmapOf.{unmap_in};
ghost use Rattle.shm_wire.specs.WriteOf.{write_of};
ghost use Rattle.shm_wire.specs.Writes.{IsWrite};

use crate::block_load::Block;
use crate::block_store::Write;
use crate::build_step_output::is_open;
use crate::interpreted_line::Heard;
use crate::mapping_list::change_mapped;
use crate::node::Node;
use crate::step_output::Said;
use crate::waiting_ask::WaitingAsk;
use shm_model::Asked;
use shm_place::PAGE_BYTES;
use shm_site::Answer;
use shm_wire::{Ask, Line, Question, Sent, Tag, UnmapAsk, WriteAsk};
use std::alloc::{AllocError, Allocator};

/// The most asks that wait. A further access is answered at once, as one that is only tried; a further block is answered `waiting`, and
/// isn't tried.
pub(crate) const MOST_WAITING: usize = 64;

/// The most steps of waiting asks after one line: for each ask a page's bytes, and one step more that asks for a right. They are always
/// enough (`laws::no_ask_is_left_that_can_be_made`).
pub(crate) const MOST_STEPS: usize = MOST_WAITING * (PAGE_BYTES + 1);

impl<A: Allocator + Copy> Node<A> {
    /// Takes what a line is, and says what the site's step does; `None`: it made none. A load or a store without its right joins those that
    /// wait, and so does a block, unless it finds no room. Where memory is refused the node is as before, and the line may be taken again.
    pub fn take(&mut self, line: Line<A>) -> Result<Option<Said<A>>, AllocError>
        requires { IsLine (line_of line) }
        ensures said { IfOk result (λ said_now. option_map (said_of (OfLine (line_of line))) said_now ≡ said (node_of self.old) (line_of line)) }
        ensures after { OnOk result (node_of self.new ≡ after (node_of self.old) (line_of line)) }
        ensures refused { OnErr result (node_of self.new ≡ node_of self.old) }
    {
        match line {
            Line::Envelope(sent) => self.take_envelope(sent),
            Line::Ask(ask) => self.take_ask(&ask),
            Line::Write(write) => self.take_write(write),
            Line::Unmap(unmap) => self.take_unmap(&unmap),
        }
    }

    fn take_envelope(&mut self, sent: Sent<A>) -> Result<Option<Said<A>>, AllocError>
        ensures said { IfOk result (λ said_now. option_map (said_of (OfLine (stream.Envelope (sent_of sent)))) said_now
            ≡ said (node_of self.old) (stream.Envelope (sent_of sent))) }
        ensures after { OnOk result (node_of self.new ≡ after (node_of self.old) (stream.Envelope (sent_of sent))) }
        ensures refused { OnErr result (node_of self.new ≡ node_of self.old) }
    {
        match self.hear_envelope(sent) {
            Some(heard) => {
                let said = self.make(heard)?;
                Ok(Some(said))
            }
            None => {
                self.pass_over();
                Ok(None)
            }
        }
    }

    fn take_ask(&mut self, ask: &Ask) -> Result<Option<Said<A>>, AllocError>
        requires { IsAsk (asks.ask_of ask.now) }
        ensures said { IfOk result (λ said_now. option_map (said_of (OfLine (stream.Ask (asks.ask_of ask.now)))) said_now
            ≡ said (node_of self.old) (stream.Ask (asks.ask_of ask.now))) }
        ensures after { OnOk result (node_of self.new ≡ after (node_of self.old) (stream.Ask (asks.ask_of ask.now))) }
        ensures refused { OnErr result (node_of self.new ≡ node_of self.old) }
    {
        match self.hear_ask(ask)? {
            Some(heard) => {
                let said = self.make(heard)?;
                Ok(Some(said))
            }
            None => {
                self.take_unheard(ask)?;
                Ok(None)
            }
        }
    }

    /// Takes an unmap that brings no bytes any more; others are passed over.
    fn take_unmap(&mut self, unmap: &UnmapAsk<A>) -> Result<Option<Said<A>>, AllocError>
        ensures said { IfOk result (λ said_now. option_map (said_of (OfLine (stream.Unmap (unmap_in unmap.now)))) said_now
            ≡ said (node_of self.old) (stream.Unmap (unmap_in unmap.now))) }
        ensures after { OnOk result (node_of self.new ≡ after (node_of self.old) (stream.Unmap (unmap_in unmap.now))) }
        ensures refused { OnErr result (node_of self.new ≡ node_of self.old) }
    {
        match self.hear_unmap(unmap)? {
            Some(heard) => {
                let said = self.make(heard)?;
                Ok(Some(said))
            }
            None => {
                self.pass_over();
                Ok(None)
            }
        }
    }

    /// Takes an ask that makes no step: the block that it is for joins those that wait, or it is passed over.
    fn take_unheard(&mut self, ask: &Ask) -> Result<(), AllocError>
        requires { IsAsk (asks.ask_of ask.now) }
        ensures after { OnOk result (node_of self.new ≡ after_unheard (node_of self.old) (joining (node_of self.old) (stream.Ask (asks.ask_of ask.now)))) }
        ensures refused { OnErr result (node_of self.new ≡ node_of self.old) }
    {
        match self.joining_block(ask)? {
            Some(block) => self.join_block(block),
            None => {
                self.pass_over();
                Ok(())
            }
        }
    }

    /// Takes a block that is to be stored: it joins those that wait, or it is passed over.
    fn take_write(&mut self, write: WriteAsk<A>) -> Result<Option<Said<A>>, AllocError>
        requires { IsWrite (write_of write) }
        ensures said { IfOk result (λ said_now. option_map (said_of (OfLine (stream.Write (write_of write)))) said_now
            ≡ said (node_of self.old) (stream.Write (write_of write))) }
        ensures after { OnOk result (node_of self.new ≡ after (node_of self.old) (stream.Write (write_of write))) }
        ensures refused { OnErr result (node_of self.new ≡ node_of self.old) }
    {
        if !self.has_room() || write.site != self.me || self.is_late(0) {
            self.pass_over();
            return Ok(None);
        }
        self.join_block(WaitingAsk::Writes(Write::new(write)))?;
        Ok(None)
    }

    /// The block that is asked for, if it finds room to wait.
    fn joining_block(&self, ask: &Ask) -> Result<Option<WaitingAsk<A>>, AllocError>
        requires { IsAsk (asks.ask_of ask.now) }
        ensures { IfOk result (λ block. option_map ask_of block ≡ joining (node_of self.now) (stream.Ask (asks.ask_of ask.now))) }
    {
        if !self.has_room() || ask.site != self.me || self.is_late(0) {
            return Ok(None);
        }
        let Question::Read { at, offset, length } = ask.asked else {
            return Ok(None);
        };
        let block = Block::new(self.alloc, ask.tag, at, offset, length)?;
        Ok(Some(WaitingAsk::Reads(block)))
    }

    /// The block joins those that wait.
    #[tactic(auto, using(crate::proofs::Asks::map_push))]
    fn join_block(&mut self, block: WaitingAsk<A>) -> Result<(), AllocError>
        ensures after { OnOk result (node_of self.new ≡ joined (node_of self.old) (ask_of block)) }
        ensures refused { OnErr result (node_of self.new ≡ node_of self.old) }
    {
        self.waiting.reserve(1)?;
        self.taken = one_more(self.taken);
        self.waiting.push_reserved(block);
        Ok(())
    }

    /// Passes a line over: it is counted.
    pub fn pass_over(&mut self)
        ensures { node_of self.new ≡ passed_over (node_of self.old) }
    {
        self.passed = one_more(self.passed);
    }

    /// Makes a step that can be this site's, under a clock that there is.
    fn make(&mut self, heard: Heard<A>) -> Result<Said<A>, AllocError>
        requires proper { is_foreign self.old.sites self.old.me (input_of heard.input) ≡ false }
        requires early { max self.old.clock heard.source < greatest }
        ensures said { (cause : Cause) → IfOk result (λ said. said_of cause said ≡ says (node_of self.old) cause (heard_of heard) (joins (node_of self.old) (heard_of heard))) }
        ensures after { OnOk result (node_of self.new ≡ taken (node_of self.old) (heard_of heard)) }
        ensures refused { OnErr result (node_of self.new ≡ node_of self.old) }
    {
        let Heard {
            input,
            source,
            tag,
            waits,
            mapped,
        } = heard;
        let room = self.has_room();
        self.waiting.reserve(1)?;
        let clock = self.next_clock(source);
        let made = self.site.step_spending(input)?;
        self.taken = one_more(self.taken);
        let (tag, stays) = join(&mut self.waiting, room, waits, tag, &made.answer);
        change_mapped(&mut self.mapped, mapped);
        Ok(self.say(clock, tag, stays, made, None))
    }

    /// Checks that one more ask may wait.
    #[tactic(auto, using(crate::proofs::Asks::length_map))]
    pub(crate) fn has_room(&self) -> bool
        ensures { result ≡ has_room (node_of self.now) }
    {
        self.waiting.len() < MOST_WAITING
    }

    /// The clock of the next step.
    pub(crate) fn next_clock(&self, source: u64) -> u64
        requires { max self.now.clock source < greatest }
        ensures { result ≡ next_clock (node_of self.now) source }
    {
        self.clock.max(source) + 1
    }
}

/// An access joins those that wait, if there is room for it and it was neither made nor refused: then it stays. The tag, unless it does.
#[tactic(auto, using(crate::proofs::Asks::map_push))]
fn join<A: Allocator + Copy>(
    waiting: &mut Vec<WaitingAsk<A>, A>,
    room: bool,
    waits: Option<Asked>,
    tag: Option<Tag>,
    answer: &Answer,
) -> (Option<Tag>, bool)
    requires { vec_len waiting.old < vec_capacity waiting.old }
    ensures stays { result.1 ≡ ((is_some (access_under (option_map tag_text tag) waits) && room) && is_open answer.now) }
    ensures after { map ask_of waiting.new.items ≡ with_ask (map ask_of waiting.old.items) (access_under (option_map tag_text tag) waits) result.1 }
    ensures tag { option_map tag_text result.0 ≡ (if result.1 then None else option_map tag_text tag) }
{
    let Some(asked) = waits else {
        return (tag, false);
    };
    let Some(tag) = tag else {
        return (None, false);
    };
    if !room || !is_open(answer) {
        return (Some(tag), false);
    }
    waiting.push_reserved(WaitingAsk::Access { tag, asked });
    (None, true)
}

/// One more line.
fn one_more(lines: u64) -> u64
    ensures { result ≡ counted lines }
{
    lines.saturating_add(1)
}
