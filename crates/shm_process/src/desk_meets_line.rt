//! What a desk does with a line while pages are mapped: it is taken, kept back until a page is given up, or answered at once.
ghost use Rattle.std.specs.Prelude.{◌≡◌, ◌++◌, Some, map, option_map, string_bytes, IfOk, OnOk};
ghost use Rattle.std.specs.List.{flat_map, list_any};
ghost use Rattle.shm_process.specs.AskOf.{ask_of};
ghost use Rattle.shm_process.specs.Cause.{Cause, cause_text};
ghost use Rattle.shm_process.specs.Counts.{was_received};
ghost use Rattle.shm_process.specs.Desk.{answered, by_meeting, finished, keep, made_and_told, map_reply, may_keep, met, met_again, quietly, reminded_if, reminder, revoked, tell_caller, ticks, tried, tried_so, try_of, untagged, with_step};
ghost use Rattle.shm_process.specs.Desk as spec;
ghost use Rattle.shm_process.specs.DeskOf.{desk_of, kept_of};
ghost use Rattle.shm_model.specs.declared.asked_access.Asked.{Asked};
ghost use Rattle.shm_process.specs.Meetings.{meeting};
ghost use Rattle.shm_process.specs.NodeOf.{node_of, said_of};
ghost use Rattle.shm_process.specs.WaitingAsks.{next_access};
ghost use Rattle.shm_seal.specs.SealOf.{seal_of};
ghost use Rattle.shm_wire.specs.Line as stream;
ghost use Rattle.shm_wire.specs.Line.{IsLine};
ghost use Rattle.shm_wire.specs.LineOf.{line_of};
ghost use Rattle.shm_wire.specs.TagOf.{tag_text};

use crate::build_step_output::is_open;
use crate::desk::{Desk, is_envelope};
use crate::envelope_lines::push_sealed;
use crate::kept_line::KeptLine;
use crate::line_meeting::Meeting;
use crate::node::Node;
use crate::node_meets_line::{keeps_beside, revoking};
use crate::step_output::Said;
use crate::waiting_ask::WaitingAsk;
use shm_model::{Answer, Asked};
use shm_place::PageId;
use shm_seal::Seal;
use shm_text::AnswerText;
use shm_wire::{Ask, Line, Question, RevokeText, Tag, parse_line};
use std::alloc::{AllocError, Allocator};
use std::mem;

/// The most lines that are kept back. Of envelopes one for each page is: a tick brings the others again.
const MOST_KEPT: usize = 64;

impl<A: Allocator + Copy> Desk<A> {
    /// Meets what a line is: takes it, keeps it back, or answers it at once. Where it is fresh the machine is asked for what it waits for.
    #[tactic(auto, unfolding(crate::specs::Desk::by_meeting))]
    pub(crate) fn meet_read(
        &mut self,
        fresh: bool,
        line: &[u8],
        read: Line<A>,
    ) -> Result<(), AllocError>
        requires is_line { IsLine (line_of read) }
        requires spelled { line.now ≡ stream.line_text (line_of read) }
        ensures { OnOk result (desk_of self.new ≡ by_meeting fresh (desk_of self.old) line.now (line_of read) (meeting (desk_of self.old).node (line_of read))) }
    {
        match self.node.meeting(&read) {
            Meeting::Free => self.take_read(line, read),
            Meeting::Kept { page, wants } => {
                self.revoke(fresh, wants)?;
                self.keep_back(page, line, tag_in(&read))
            }
            Meeting::Answered(answer) => self.answer(tag_in(&read), answer),
            Meeting::Maps { at, index } => self.make_map(line, read, at, index),
            Meeting::Tries(asked) => self.try_access(line, try_of(read, asked)),
            Meeting::Unmaps => self.give_up_by(line, read),
        }
    }

    /// Meets a line that was kept back.
    fn meet_again(&mut self, fresh: bool, line: &[u8]) -> Result<(), AllocError>
        ensures { OnOk result (desk_of self.new ≡ met fresh (desk_of self.old) line.now) }
    {
        match parse_line(self.alloc, line)? {
            Some(read) => self.meet_read(fresh, line, read),
            None => {
                self.node.pass_over();
                Ok(())
            }
        }
    }

    /// Meets all that was kept back, and then makes the asks that wait. At a tick the machine is asked again for what they wait for.
    pub(crate) fn finish(&mut self, tick: bool) -> Result<(), AllocError>
        ensures { OnOk result (desk_of self.new ≡ finished tick (desk_of self.old)) }
    {
        self.remind(tick)?;
        self.meet_kept(tick)?;
        self.settle()
    }

    /// Meets all that was kept back.
    fn meet_kept(&mut self, fresh: bool) -> Result<(), AllocError>
        ensures { OnOk result (desk_of self.new ≡ met_again fresh (desk_of self.old)) }
    {
        let kept = mem::replace(&mut self.kept, Vec::new(self.alloc));
        self.meet_all(fresh, kept.as_slice())
    }

    fn meet_all(&mut self, fresh: bool, kept: &[KeptLine<A>]) -> Result<(), AllocError>
        ensures { OnOk result (desk_of self.new ≡ spec.all_met fresh (desk_of self.old) (map kept_of kept.now)) }
    {
        'kept: for one in kept {
            self.meet_again(fresh, one.line.as_slice())?;
        }
        Ok(())
    }

    /// Asks the machine for what the asks that wait want to be given up.
    #[tactic(auto, unfolding(crate::specs::Desk::reminded))]
    fn remind(&mut self, tick: bool) -> Result<(), AllocError>
        ensures { OnOk result (desk_of self.new ≡ reminded_if tick (desk_of self.old)) }
    {
        if !tick {
            return Ok(());
        }
        let alloc = self.alloc;
        let node = &self.node;
        push_reminders(
            alloc,
            &self.seal,
            node,
            node.waiting.as_slice(),
            &mut self.told,
        )
    }

    /// Asks the machine to give a page up.
    fn revoke(&mut self, fresh: bool, wants: Option<RevokeText>) -> Result<(), AllocError>
        ensures { OnOk result (desk_of self.new ≡ revoked fresh wants (desk_of self.old)) }
    {
        if !fresh {
            return Ok(());
        }
        let Some(wants) = wants else {
            return Ok(());
        };
        let line = self.node.revoke_line(wants)?;
        push_sealed(self.alloc, &self.seal, &mut self.told, line.as_str())
    }

    /// Keeps a line back, if it finds room; else its caller may ask again.
    #[tactic(auto, using(crate::proofs::Asks::map_push))]
    fn keep_back(
        &mut self,
        page: Option<PageId>,
        line: &[u8],
        tag: Option<Tag>,
    ) -> Result<(), AllocError>
        ensures { OnOk result (desk_of self.new ≡ keep (desk_of self.old) page line.now (option_map tag_text tag)) }
    {
        if !may_keep(self.kept.as_slice(), &page) {
            return self.answer(tag, Answer::Waiting);
        }
        self.kept.reserve(1)?;
        let line = line.to_vec(self.alloc)?;
        self.kept.push_reserved(KeptLine { line, page });
        Ok(())
    }

    /// Answers a line that makes no step.
    fn answer(&mut self, tag: Option<Tag>, answer: Answer) -> Result<(), AllocError>
        ensures { OnOk result (desk_of self.new ≡ answered (desk_of self.old) (option_map tag_text tag) answer) }
    {
        self.node.pass_over();
        let text = format!(in self.alloc; "{}", AnswerText(answer))?;
        self.tell(tag, text.as_str())
    }

    /// Tells a caller this.
    pub(crate) fn tell(&mut self, tag: Option<Tag>, text: &str) -> Result<(), AllocError>
        ensures { OnOk result (desk_of self.new ≡ tell_caller (desk_of self.old) (option_map tag_text tag) text.now) }
    {
        let Some(tag) = tag else {
            return Ok(());
        };
        let site = self.node.me.0;
        let line = format!(in self.alloc; "tell {site} {tag} {text}")?;
        push_sealed(self.alloc, &self.seal, &mut self.told, line.as_str())
    }

    /// Maps a page whose right is there, and tells its bytes.
    fn make_map(
        &mut self,
        line: &[u8],
        read: Line<A>,
        at: u32,
        index: u32,
    ) -> Result<(), AllocError>
        requires is_line { IsLine (line_of read) }
        requires spelled { line.now ≡ stream.line_text (line_of read) }
        ensures { OnOk result (desk_of self.new ≡ made_and_told (desk_of self.old) (line_of read) (map_reply (desk_of self.old).node at index)) }
    {
        let text = self.node.map_reply(at, index)?;
        self.make_and_tell(line, read, text.as_str())
    }

    /// Makes the step, and tells its caller this.
    pub(crate) fn make_and_tell(
        &mut self,
        line: &[u8],
        read: Line<A>,
        text: &str,
    ) -> Result<(), AllocError>
        requires is_line { IsLine (line_of read) }
        requires spelled { line.now ≡ stream.line_text (line_of read) }
        ensures { OnOk result (desk_of self.new ≡ made_and_told (desk_of self.old) (line_of read) text.now) }
    {
        let tag = tag_in(&read);
        self.make_quietly(line, read)?;
        self.tell(tag, text)
    }

    /// Makes the step of a line, and doesn't tell its answer.
    #[tactic(auto, unfolding(crate::specs::Desk::quietly))]
    pub(crate) fn make_quietly(&mut self, line: &[u8], read: Line<A>) -> Result<(), AllocError>
        requires is_line { IsLine (line_of read) }
        requires spelled { line.now ≡ stream.line_text (line_of read) }
        ensures { OnOk result (desk_of self.new ≡ quietly (desk_of self.old) (line_of read)) }
    {
        let received = is_envelope(&read);
        match self.node.take(read)? {
            Some(said) => self.push_quietly(line, said, received),
            None => Ok(()),
        }
    }

    fn push_quietly(&mut self, line: &[u8], said: Said<A>, received: bool) -> Result<(), AllocError>
        ensures { (cause : Cause) → cause_text cause ≡ line.now → was_received cause ≡ received
            → OnOk result (desk_of self.new ≡ with_step (desk_of self.old) (Some (untagged (said_of cause said)))) }
    {
        let said = untagged(said);
        self.push_step(line, &said, received)
    }

    /// Makes the step that asks for the right to map a page, and keeps the map's line back; or it is refused.
    fn try_access(&mut self, line: &[u8], step: Line<A>) -> Result<(), AllocError>
        requires { IsLine (line_of step) }
        ensures { (read : stream.Line) (asked : Asked) → line_of step ≡ try_of read asked
            → OnOk result (desk_of self.new ≡ tried (desk_of self.old) line.now read asked) }
    {
        let tag = tag_in(&step);
        let received = is_envelope(&step);
        let text = text_of_line(self.alloc, &step)?;
        match self.node.take(step)? {
            Some(said) => self.end_try(line, text.as_bytes(), said, tag, received),
            None => Ok(()),
        }
    }

    /// A step that asked for a right was made.
    fn end_try(
        &mut self,
        line: &[u8],
        step: &[u8],
        said: Said<A>,
        tag: Option<Tag>,
        received: bool,
    ) -> Result<(), AllocError>
        ensures { (cause : Cause) → cause_text cause ≡ step.now → was_received cause ≡ received
            → OnOk result (desk_of self.new ≡ tried_so (desk_of self.old) line.now (option_map tag_text tag) (said_of cause said)) }
    {
        if !is_open(&said.answer) {
            return self.push_step(step, &said, received);
        }
        self.push_quietly(step, said, received)?;
        self.keep_back(None, line, tag)
    }
}

/// The line of that step, under the caller's tag.
fn try_of<A: Allocator + Copy>(read: Line<A>, asked: Asked) -> Line<A>
    ensures { line_of result ≡ try_of (line_of read) asked }
{
    match read {
        Line::Ask(ask) => Line::Ask(Ask {
            site: ask.site,
            tag: ask.tag,
            asked: Question::Try(asked),
        }),
        other => other,
    }
}

/// A line's text.
fn text_of_line<A: Allocator + Copy>(alloc: A, line: &Line<A>) -> Result<String<A>, AllocError>
    ensures { IfOk result (λ text. string_bytes text ≡ stream.line_text (line_of line.now)) }
{
    match line {
        Line::Envelope(sent) => format!(in alloc; "{sent}"),
        Line::Ask(ask) => format!(in alloc; "{ask}"),
        Line::Write(write) => format!(in alloc; "{write}"),
        Line::Unmap(unmap) => format!(in alloc; "{unmap}"),
    }
}

impl<A: Allocator + Copy> Node<A> {
    /// The line is a tick of this site.
    pub(crate) fn ticks(&self, line: &Line<A>) -> bool
        ensures { result ≡ ticks (node_of self.now) (line_of line.now) }
    {
        match line {
            Line::Ask(ask) => ask.site == self.me && is_tick(ask.asked),
            Line::Envelope(_) | Line::Write(_) | Line::Unmap(_) => false,
        }
    }

    /// The line that asks the machine to give a page up.
    fn revoke_line(&self, wants: RevokeText) -> Result<String<A>, AllocError>
        ensures { IfOk result (λ line. string_bytes line ≡ spec.revoke_line (node_of self.now) wants) }
    {
        let site = self.me.0;
        format!(in self.alloc; "tell {site} * {wants}")
    }

    /// The line that asks the machine for what this access waits for.
    fn reminder(&self, asked: Asked) -> Result<Option<String<A>>, AllocError>
        ensures { IfOk result (λ line. option_map string_bytes line ≡ spec.reminder_line (node_of self.now) asked) }
    {
        let Some(mapping) = self.passing(asked) else {
            return Ok(None);
        };
        let line = self.revoke_line(revoking(keeps_beside(asked), &mapping))?;
        Ok(Some(line))
    }
}

/// Appends what these asks want to be given up.
fn push_reminders<A: Allocator + Copy>(
    alloc: A,
    seal: &Seal,
    node: &Node<A>,
    asks: &[WaitingAsk<A>],
    told: &mut String<A>,
) -> Result<(), AllocError>
    ensures { OnOk result (string_bytes told.new ≡ string_bytes told.old
        ++ flat_map (λ ask. reminder (seal_of seal.now) (node_of node.now) (next_access ask)) (map ask_of asks.now)) }
{
    'asks: for ask in asks {
        push_reminder(alloc, seal, node, ask, told)?;
    }
    Ok(())
}

fn push_reminder<A: Allocator + Copy>(
    alloc: A,
    seal: &Seal,
    node: &Node<A>,
    ask: &WaitingAsk<A>,
    told: &mut String<A>,
) -> Result<(), AllocError>
    ensures { OnOk result (string_bytes told.new ≡ string_bytes told.old
        ++ reminder (seal_of seal.now) (node_of node.now) (next_access (ask_of ask.now))) }
{
    match node.reminder(ask.next_access())? {
        Some(line) => push_sealed(alloc, seal, told, line.as_str()),
        None => Ok(()),
    }
}

fn is_tick(asked: Question) -> bool
    ensures { result ≡ spec.is_tick asked }
{
    matches!(asked, Question::Tick)
}

/// The tag of the caller who asks.
fn tag_in<A: Allocator + Copy>(line: &Line<A>) -> Option<Tag>
    ensures { option_map tag_text result ≡ spec.tag_in (line_of line.now) }
{
    match line {
        Line::Envelope(_) => None,
        Line::Ask(ask) => Some(ask.tag),
        Line::Write(write) => Some(write.tag),
        Line::Unmap(unmap) => Some(unmap.tag),
    }
}

/// A step whose answer isn't told.
pub(crate) fn untagged<A: Allocator + Copy>(said: Said<A>) -> Said<A>
    ensures { (cause : Cause) → said_of cause result ≡ untagged (said_of cause said) }
{
    let Said {
        site,
        clock,
        index,
        sent,
        tag: _,
        answer,
        block,
    } = said;
    Said {
        site,
        clock,
        index,
        sent,
        tag: None,
        answer,
        block,
    }
}

/// Checks that one more line finds room.
#[tactic(auto, using(crate::proofs::Asks::length_map))]
fn may_keep<A: Allocator + Copy>(kept: &[KeptLine<A>], page: &Option<PageId>) -> bool
    ensures { result ≡ may_keep (map kept_of kept.now) page.now }
{
    kept.len() < MOST_KEPT && is_new_page(kept, page)
}

fn is_new_page<A: Allocator + Copy>(kept: &[KeptLine<A>], page: &Option<PageId>) -> bool
    ensures { result ≡ spec.is_new_page (map kept_of kept.now) page.now }
{
    match page {
        Some(page) => !is_kept_for(kept, page),
        None => true,
    }
}

fn is_kept_for<A: Allocator + Copy>(kept: &[KeptLine<A>], page: &PageId) -> bool
    ensures { result ≡ list_any (λ k. spec.is_page page.now k.page) (map kept_of kept.now) }
{
    'kept: for one in kept {
        if is_page(page, &one.page) {
            return true;
        }
    }
    false
}

fn is_page(page: &PageId, other: &Option<PageId>) -> bool
    ensures { result ≡ spec.is_page page.now other.now }
{
    match other {
        Some(other) => *page == *other,
        None => false,
    }
}
