//! The script of what stands, which a replay plays to the same end.
ghost use Rattle.std.specs.Prelude.{◌≡◌, ◌<◌, IfErr, IfOk, length};
ghost use Rattle.shm_model.specs.Opening.{opening_of};
ghost use Rattle.shm_debug.specs.Standing.{Standing};
ghost use Rattle.shm_prompt.specs.Saved as saved;
ghost use Rattle.shm_prompt.specs.Saved.{Replays, lines_of, text_of_lines};
ghost use Rattle.shm_prompt.specs.Spelled.{AreRefused};

use crate::save_refusal::SaveRefusal;
use crate::spell_saved_line::push_line;
use shm_debug::Session;
use shm_lines::{Line, laws};
use shm_model::{Event, Opening};
use std::alloc::Allocator;

/// The most lines that a script has.
const MAX_LINES: usize = 100_000;

/// The script of the events that stand: the `sites` line, and a line for each event. A replay reads exactly these lines, and its session is
/// the same. It is refused where memory is, where there are too many lines, or where a line has no spelling.
pub fn saved_script<A: Allocator + Copy>(
    alloc: A,
    session: &Session<A>,
) -> Result<Vec<u8, A>, SaveRefusal>
    ensures text { IfOk result (λ bytes. bytes.items ≡ text_of_lines (lines_of session.now)) }
    ensures replays { IfOk result (λ bytes. Replays bytes.items session.now) }
    ensures refused { IfErr result (AreRefused (lines_of session.now)) }
{
    let events = session.events();
    if events.len() >= MAX_LINES {
        return Err(SaveRefusal::TooManyLines);
    }
    text_of(alloc, first_line(session.opening()), events)
}

/// A first line, and a line for each of the events.
fn text_of<A: Allocator + Copy>(
    alloc: A,
    first: Line,
    events: &[Event],
) -> Result<Vec<u8, A>, SaveRefusal>
    ensures text { (s : Standing) → saved.first_line s.opening ≡ first → s.events ≡ events.now
        → IfOk result (λ bytes. bytes.items ≡ text_of_lines (lines_of s)) }
    ensures replays { (s : Standing) → saved.first_line s.opening ≡ first → s.events ≡ events.now → length s.events < 100000
        → IfOk result (λ bytes. Replays bytes.items s) }
    ensures refused { (s : Standing) → saved.first_line s.opening ≡ first → s.events ≡ events.now → length s.events < 100000
        → IfErr result (AreRefused (lines_of s)) }
{
    laws::lines_have_one_spelling();
    let mut text = Vec::new(alloc);
    match push_line(&mut text, first) {
        Ok(()) => {}
        Err(refusal) => return Err(refusal),
    }
    'events: for event in events {
        match push_line(&mut text, Line::Event(*event)) {
            Ok(()) => {}
            Err(refusal) => return Err(refusal),
        }
    }
    Ok(text)
}

/// The line that says how the sites begin.
fn first_line(opening: Opening) -> Line
    ensures { result ≡ saved.first_line (opening_of opening) }
{
    let sites = opening.sites;
    match (opening.preset, opening.frames) {
        (None, _) => Line::Sites(Opening::new(sites)),
        (Some(pages), None) => Line::Sites(Opening::preset(sites, pages)),
        (Some(pages), Some(frames)) => Line::Sites(Opening::framed(sites, pages, frames)),
    }
}
