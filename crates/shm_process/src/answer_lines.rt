//! The lines that callers get: answers, blocks, a page's state, and the site's counts.
ghost use Rattle.std.specs.Prelude.{◌≡◌, ◌++◌, option_map, string_bytes, IfOk, OnOk, Some};
ghost use Rattle.shm_process.specs.Cause.{OfRestart};
ghost use Rattle.shm_process.specs.CountsOf.{counts_of};
ghost use Rattle.shm_process.specs.NodeOf.{node_of, said_of};
ghost use Rattle.shm_process.specs.Telling.{answer_line_of, crowded_out, health_line, mappings_line, page_line, shown_for, shown_here, shown_line, shown_write, text_of};
ghost use Rattle.shm_process.specs.HealthOf.{health_in};
ghost use Rattle.shm_wire.specs.Asks.{ask_of};
ghost use Rattle.shm_wire.specs.LineOf.{line_of};
ghost use Rattle.shm_wire.specs.TagOf.{tag_text};
ghost use Rattle.shm_wire.specs.WriteOf.{write_of};

use crate::health::Health;
use crate::node::Node;
use crate::process_counts::Counts;
use crate::step_output::Said;
use shm_model::refusal::FOREIGN;
use shm_model::{Answer, Shown, State};
use shm_place::PageId;
use shm_text::{AnswerText, push_answer, push_number};
use shm_wire::{Ask, BlockText, Line, MappingsText, Question, Tag, WriteAsk};
use std::alloc::{AllocError, Allocator};
use std::fmt;

/// So many bytes most answers' lines have at most; others take more memory as they grow.
const ANSWER_BYTES: usize = 64;

impl<A: Allocator + Copy> Said<A> {
    /// The line with the answer, without a line feed, if there is a caller who gets it.
    pub fn answer_line(&self, alloc: A) -> Result<Option<String<A>>, AllocError>
        ensures { IfOk result (λ line. option_map string_bytes line ≡ answer_line_of (said_of OfRestart self.now)) }
    {
        let Some(tag) = &self.tag else {
            return Ok(None);
        };
        let mut line = String::with_capacity(alloc, ANSWER_BYTES)?;
        line.push_str("tell ")?;
        push_number(&mut line, self.site.0 as u64)?;
        line.push_str(" ")?;
        line.push_str(tag.as_str())?;
        line.push_str(" ")?;
        push_told(&mut line, &self.answer, self.whole_block())?;
        Ok(Some(line))
    }

    fn whole_block(&self) -> Option<&[u8]>
        ensures { option_map (λ bytes. bytes.now) result ≡ option_map (λ bytes. bytes.items) self.now.block }
    {
        match &self.block {
            Some(bytes) => Some(bytes.as_slice()),
            None => None,
        }
    }
}

/// Appends an answer in the script's words, or the bytes of a block.
fn push_told<A: Allocator + Copy>(
    line: &mut String<A>,
    answer: &Answer,
    block: Option<&[u8]>,
) -> Result<(), AllocError>
    ensures { OnOk result (string_bytes line.new ≡ string_bytes line.old ++ text_of answer.now (option_map (λ bytes. bytes.now) block.entry)) }
{
    match block {
        Some(bytes) => {
            let text = BlockText(bytes);
            write!(line, "{text}")
        }
        None => push_answer(line, answer),
    }
}

impl<A: Allocator + Copy> Node<A> {
    /// The line that answers this one at once, without a line feed: the site's state of a page, or its counts, where that is asked for, or
    /// that a block finds no room to wait. It makes no step. `counts` are those of its desk. Ask for it before the line is taken: a block that has joined may have taken the last room.
    pub fn line_at_once(
        &self,
        counts: Counts,
        line: &Line<A>,
    ) -> Result<Option<String<A>>, AllocError>
        ensures { IfOk result (λ told. option_map string_bytes told ≡ shown_line (counts_of counts) (node_of self.now) (line_of line.now)) }
    {
        match line {
            Line::Envelope(_) | Line::Unmap(_) => Ok(None),
            Line::Ask(ask) => self.ask_at_once(counts, ask),
            Line::Write(write) => self.write_at_once(write),
        }
    }

    fn ask_at_once(&self, counts: Counts, ask: &Ask) -> Result<Option<String<A>>, AllocError>
        ensures { IfOk result (λ told. option_map string_bytes told ≡ shown_here (counts_of counts) (node_of self.now) (ask_of ask.now)) }
    {
        let Ask { site, tag, asked } = *ask;
        if site != self.me {
            return Ok(None);
        }
        self.question_at_once(counts, tag, asked)
    }

    fn question_at_once(
        &self,
        counts: Counts,
        tag: Tag,
        asked: Question,
    ) -> Result<Option<String<A>>, AllocError>
        ensures { IfOk result (λ told. option_map string_bytes told ≡ shown_for (counts_of counts) (node_of self.now) (tag_text tag) asked) }
    {
        match asked {
            Question::Show(page) => self.show_page(tag, page),
            Question::Health => self.tell_health(tag, self.health(counts)),
            Question::Read { .. } => self.crowd_out(tag),
            Question::Mappings => self.tell_mappings(tag),
            _ => Ok(None),
        }
    }

    fn write_at_once(&self, write: &WriteAsk<A>) -> Result<Option<String<A>>, AllocError>
        ensures { IfOk result (λ told. option_map string_bytes told ≡ shown_write (node_of self.now) (write_of write.now)) }
    {
        if write.site != self.me {
            return Ok(None);
        }
        self.crowd_out(write.tag)
    }

    fn show_page(&self, tag: Tag, page: PageId) -> Result<Option<String<A>>, AllocError>
        ensures { IfOk result (λ told. option_map string_bytes told ≡ Some (page_line (node_of self.now) (tag_text tag) page)) }
    {
        let site = self.me.0;
        let shown = ShownText(self.site.shown(page));
        let line = format!(in self.alloc; "tell {site} {tag} {shown}")?;
        Ok(Some(line))
    }

    /// The answer to a caller who asks for these counts.
    fn tell_health(&self, tag: Tag, health: Health) -> Result<Option<String<A>>, AllocError>
        ensures { IfOk result (λ told. option_map string_bytes told ≡ Some (health_line (node_of self.now) (tag_text tag) (health_in health))) }
    {
        let site = self.me.0;
        let line = format!(in self.alloc; "tell {site} {tag} {health}")?;
        Ok(Some(line))
    }

    fn tell_mappings(&self, tag: Tag) -> Result<Option<String<A>>, AllocError>
        ensures { IfOk result (λ told. option_map string_bytes told ≡ Some (mappings_line (node_of self.now) (tag_text tag))) }
    {
        let site = self.me.0;
        let mappings = MappingsText(self.mapped.as_slice());
        let line = format!(in self.alloc; "tell {site} {tag} {mappings}")?;
        Ok(Some(line))
    }

    /// The answer to a block that finds no room to wait.
    fn crowd_out(&self, tag: Tag) -> Result<Option<String<A>>, AllocError>
        ensures { IfOk result (λ told. option_map string_bytes told ≡ crowded_out (node_of self.now) (tag_text tag)) }
    {
        if self.has_room() || self.is_late(0) {
            return Ok(None);
        }
        let site = self.me.0;
        let waiting = AnswerText(Answer::Waiting);
        let line = format!(in self.alloc; "tell {site} {tag} {waiting}")?;
        Ok(Some(line))
    }
}

/// A site's state of a page, and the greatest transaction number that it met.
#[derive(Clone, Copy)]
struct ShownText(Option<Shown>);

impl fmt::Display for ShownText {
    ghost use Rattle.std.specs.Prelude.{Some};
    ghost use Rattle.shm_process.specs.Showing.{shown_text};

    ghost output = { λ text. Some (shown_text text.0) };

    fn fmt<W: fmt::Write>(&self, f: &mut fmt::Formatter<W>) -> fmt::Result {
        let Some(shown) = self.0 else {
            let refused = AnswerText(Answer::Refused(FOREIGN));
            return write!(f, "{refused}");
        };
        let state = StateName(shown.state);
        let seen = shown.seen;
        write!(f, "page {state}/{seen}")
    }
}

#[derive(Clone, Copy)]
struct StateName(State);

impl fmt::Display for StateName {
    ghost use Rattle.std.specs.Prelude.{Some};
    ghost use Rattle.shm_text.specs.Names.{state_name};

    ghost output = { λ name. Some (state_name name.0) };

    fn fmt<W: fmt::Write>(&self, f: &mut fmt::Formatter<W>) -> fmt::Result {
        match self.0 {
            State::Nil => write!(f, "Nil"),
            State::Copy => write!(f, "Copy"),
            State::OwnRead => write!(f, "OwnRead"),
            State::OwnWrite => write!(f, "OwnWrite"),
            State::Handed => write!(f, "Handed"),
            State::Purged => write!(f, "Purged"),
        }
    }
}
