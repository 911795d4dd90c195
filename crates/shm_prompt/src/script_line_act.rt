//! The lines of scripts: each is acted on as a replay does.
ghost use Rattle.std.specs.Prelude.{◌≡◌, ◌++◌, ◌⊎◌, [], Some, OnErr, OnOk};
ghost use Rattle.shm_lines.specs.Spelling.{IsLine};
ghost use Rattle.shm_lines.specs.declared.script_line.Line.TheVariants as line;
ghost use Rattle.shm_debug.specs.Said.{next, next_back};
ghost use Rattle.shm_debug.specs.Standing.{with_event};
ghost use Rattle.shm_debug.specs.Sent.{event_text};
ghost use Rattle.shm_model.specs.World as model;
ghost use Rattle.shm_text.specs.Text.{line_text};
ghost use Rattle.shm_world.specs.World.{StandsFor};
ghost use Rattle.shm_prompt.specs.Refusals as told;
ghost use Rattle.shm_prompt.specs.Refusals.{refused_text, with_words};
ghost use Rattle.shm_prompt.specs.Dialog.{Halted, LeavesNotes, after_line, answered, said_to, standing_now};

use crate::dialog_state::Dialog;
use crate::output_line::{last_line, tell_line};
use crate::refusal_words::{RefusalText, named_by, refusal_of};
use shm_debug::{BackFault, Session, print_answer};
use shm_lines::Line;
use shm_model::{Answer, Event, Opening};
use shm_place::{PageId, in_limits};
use shm_world::World;
use std::alloc::{AllocError, Allocator};

/// The answer while there are no sites.
pub(crate) const NOT_BEGUN: &str = "no sites stand yet: begin with a line as sites 2 preset 1\n";

impl<A: Allocator + Copy> Dialog<A> {
    /// Acts on a line of a script. A `sites` line begins a new session, without notes.
    pub fn act(&mut self, line: Line, out: &mut Vec<u8, A>) -> Result<(), AllocError>
        requires { IsLine line }
        ensures told { OnOk result (out.new.items ≡ out.old.items ++ said_to self.old.standing line) }
        ensures next { OnOk result (self.new ≡ after_line self.old line) }
        ensures halted { OnErr result (Halted self.old.standing line self.new.standing × LeavesNotes self.old self.new) }
    {
        match line {
            Line::Sites(opening) => self.begin_anew(Line::Sites(opening), out),
            Line::Event(event) => self.go_on(Line::Event(event), out),
            Line::Show(page) => self.go_on(Line::Show(page), out),
            Line::Back(count) => self.go_on(Line::Back(count), out),
        }
    }

    /// Acts on a line, and drops all notes.
    fn begin_anew(&mut self, line: Line, out: &mut Vec<u8, A>) -> Result<(), AllocError>
        requires { IsLine line }
        ensures told { OnOk result (out.new.items ≡ out.old.items ++ said_to self.old.standing line) }
        ensures next { OnOk result (self.new ≡ record { standing = next self.old.standing line; notes = [] }) }
        ensures halted { OnErr result (Halted self.old.standing line self.new.standing × LeavesNotes self.old self.new) }
    {
        act_on(&mut self.session, self.alloc, line, out)?;
        self.notes.clear();
        Ok(())
    }

    /// Acts on a line, and drops the notes of lines that stand no more.
    fn go_on(&mut self, line: Line, out: &mut Vec<u8, A>) -> Result<(), AllocError>
        requires { IsLine line }
        ensures told { OnOk result (out.new.items ≡ out.old.items ++ said_to self.old.standing line) }
        ensures next { OnOk result (self.new ≡ standing_now self.old (next self.old.standing line)) }
        ensures halted { OnErr result (Halted self.old.standing line self.new.standing × LeavesNotes self.old self.new) }
    {
        let done = act_on(&mut self.session, self.alloc, line, out);
        self.drop_gone_notes();
        done
    }
}

/// Acts on a line of a script.
pub(crate) fn act_on<A: Allocator + Copy>(
    session: &mut Option<Session<A>>,
    alloc: A,
    line: Line,
    out: &mut Vec<u8, A>,
) -> Result<(), AllocError>
    requires { IsLine line }
    ensures told { OnOk result (out.new.items ≡ out.old.items ++ said_to session.old line) }
    ensures next { OnOk result (session.new ≡ next session.old line) }
    ensures halted { OnErr result (Halted session.old line session.new) }
{
    match line {
        Line::Sites(opening) => begin(session, alloc, opening, out),
        Line::Event(event) => match session {
            None => out.extend_from_slice(NOT_BEGUN.as_bytes()),
            Some(session) => happen(session, alloc, event, out),
        },
        Line::Show(page) => match session {
            None => out.extend_from_slice(NOT_BEGUN.as_bytes()),
            Some(session) => show(session, page, out),
        },
        Line::Back(count) => match session {
            None => out.extend_from_slice(NOT_BEGUN.as_bytes()),
            Some(session) => go_back(session, alloc, count, out),
        },
    }
}

/// Begins a new session.
fn begin<A: Allocator + Copy>(
    session: &mut Option<Session<A>>,
    alloc: A,
    opening: Opening,
    out: &mut Vec<u8, A>,
) -> Result<(), AllocError>
    requires { IsLine (line.Sites opening) }
    ensures told { OnOk result (out.new.items ≡ out.old.items ++ said_to session.old (line.Sites opening)) }
    ensures next { OnOk result (session.new ≡ next session.old (line.Sites opening)) }
    ensures halted { OnErr result (session.new ≡ session.old) }
{
    let opened = Session::new(alloc, opening)?;
    tell_line(out, 1, b"ready")?;
    *session = Some(opened);
    Ok(())
}

/// An event happens.
pub(crate) fn happen<A: Allocator + Copy>(
    session: &mut Session<A>,
    alloc: A,
    event: Event,
    out: &mut Vec<u8, A>,
) -> Result<(), AllocError>
    ensures told { OnOk result (out.new.items ≡ out.old.items ++ answered (Some session.old) (line.Event event)) }
    ensures next { OnOk result (session.new ≡ with_event session.old event) }
    ensures halted { OnErr result ((session.new ≡ session.old) ⊎ (session.new ≡ with_event session.old event)) }
{
    let first = session.world().sent();
    let made = &event;
    let about = named_by(made);
    let answer = session.apply(*made)?;
    let number = last_line(session);
    tell_answer(alloc, session.world(), number, &answer, about, first, out)
}

/// Tells the answer to an event, as a replay does; or the refusal with its words.
fn tell_answer<A: Allocator + Copy>(
    alloc: A,
    world: &World<A>,
    number: u64,
    answer: &Answer,
    about: u64,
    first: u64,
    out: &mut Vec<u8, A>,
) -> Result<(), AllocError>
    ensures { (w : model.World) → StandsFor world.now w
        → OnOk result (out.new.items ≡ out.old.items ++ line_text number (with_words (told.refusal_of answer.now) about (event_text answer.now w first))) }
{
    match refusal_of(answer) {
        None => {
            let text = print_answer(alloc, number, answer, world, first)?;
            out.extend_from_slice(text.as_slice())
        }
        Some(refused) => tell_refusal(alloc, number, refused, about, out),
    }
}

/// Tells a refusal of an event, with its words.
fn tell_refusal<A: Allocator + Copy>(
    alloc: A,
    line: u64,
    number: u8,
    about: u64,
    out: &mut Vec<u8, A>,
) -> Result<(), AllocError>
    ensures { OnOk result (out.new.items ≡ out.old.items ++ line_text line (refused_text number about)) }
{
    let refusal = RefusalText { number, about };
    let text = format!(in alloc; "{refusal}")?;
    tell_line(out, line, text.as_bytes())
}

/// A page is shown. One that no segment can have is refused, in words too.
fn show<A: Allocator + Copy>(
    session: &Session<A>,
    page: PageId,
    out: &mut Vec<u8, A>,
) -> Result<(), AllocError>
    ensures { OnOk result (out.new.items ≡ out.old.items ++ answered (Some session.now) (line.Show page)) }
{
    let place = &page;
    let mut text = session.show(*place)?;
    if !in_limits(session.world().sites(), *place) {
        text.extend_from_slice(b": no segment can have that page")?;
    }
    tell_line(out, last_line(session), text.as_slice())
}

/// Takes the last events back, if that many stand.
fn go_back<A: Allocator + Copy>(
    session: &mut Session<A>,
    alloc: A,
    count: u32,
    out: &mut Vec<u8, A>,
) -> Result<(), AllocError>
    ensures told { OnOk result (out.new.items ≡ out.old.items ++ answered (Some session.old) (line.Back count)) }
    ensures next { OnOk result (session.new ≡ next_back session.old count) }
    ensures halted { OnErr result ((session.new ≡ session.old) ⊎ (session.new ≡ next_back session.old count)) }
{
    match session.back(count) {
        Ok(left) => {
            let text = format!(in alloc; "back {left}")?;
            tell_line(out, last_line(session), text.as_bytes())
        }
        Err(BackFault::PastBeginning) => {
            let stand = session.len();
            let text = format!(in alloc; "refused 28: events that stand: {stand}")?;
            tell_line(out, last_line(session), text.as_bytes())
        }
        Err(BackFault::OutOfMemory) => Err(AllocError),
    }
}
