//! Checks that a line has a spelling that reads back as it, and spells it.
ghost use Rattle.std.specs.Prelude.{◌≡◌, ◌≤◌, ◌==◌, [], ◌∷◌, ◌++◌, List, false, true, not, IfErr, OnOk, length};
ghost use Rattle.std.specs.List.{list_all};
ghost use Rattle.shm_model.specs.declared.call.Request.TheVariants.{Op as OpRequest};
ghost use Rattle.shm_lines.specs.Calls.{IsRequest};
ghost use Rattle.shm_lines.specs.Spelling.{IsEvent, IsLine, IsOpened};
ghost use Rattle.shm_lines.specs.declared.script_line.Line.{Line};
ghost use Rattle.shm_prompt.specs.Spelled.{AreRefused, IsSpelled, line_bytes, max_line_bytes};

use crate::save_refusal::SaveRefusal;
use shm_lines::Line;
use shm_model::{Event, Op, Opening, Request};
use shm_place::{MAX_FRAMES, PAGES};
use std::alloc::Allocator;

/// The most bytes that a line of a script has, without its line feed.
const MAX_LINE_BYTES: usize = 200;

/// Appends the line, with a line feed, if it is read back as itself.
pub(crate) fn push_line<A: Allocator + Copy>(
    text: &mut Vec<u8, A>,
    line: Line,
) -> Result<(), SaveRefusal>
    ensures text { OnOk result (text.new.items ≡ text.old.items ++ line_bytes line) }
    ensures spelled { OnOk result (IsSpelled line) }
    ensures refused { IfErr result (AreRefused (line ∷ [])) }
{
    if !is_line(line) {
        return Err(SaveRefusal::NoLine);
    }
    let Ok(spelled) = format!(in *text.allocator(); "{line}") else {
        return Err(SaveRefusal::OutOfMemory);
    };
    if !fits(spelled.as_bytes()) {
        return Err(SaveRefusal::NoLine);
    }
    append(text, spelled.as_bytes())
}

/// Appends a line's bytes, and a line feed, unless memory is refused.
fn append<A: Allocator + Copy>(text: &mut Vec<u8, A>, line: &[u8]) -> Result<(), SaveRefusal>
    ensures text { OnOk result (text.new.items ≡ text.old.items ++ (line.now ++ 10 ∷ [])) }
    ensures refused { (lines : List Line) → IfErr result (AreRefused lines) }
{
    match text.extend_from_slice(line) {
        Ok(()) => {}
        Err(_) => return Err(SaveRefusal::OutOfMemory),
    }
    match text.push(b'\n') {
        Ok(()) => Ok(()),
        Err(_) => Err(SaveRefusal::OutOfMemory),
    }
}

/// Checks that these bytes are short enough for a line, and have no line feed.
fn fits(line: &[u8]) -> bool
    ensures short { result ≡ true → length line.now ≤ max_line_bytes }
    ensures unended { result ≡ true → list_all (λ byte. not (byte == 10)) line.now ≡ true }
    ensures no { result ≡ false → length line.now ≤ max_line_bytes → list_all (λ byte. not (byte == 10)) line.now ≡ false }
{
    line.len() <= MAX_LINE_BYTES && is_unended(line)
}

/// Checks that these bytes have no line feed.
fn is_unended(line: &[u8]) -> bool
    ensures { result ≡ list_all (λ byte. not (byte == 10)) line.now }
{
    line.iter().all(|byte| *byte != b'\n')
}

/// Checks whether a script can have this line.
fn is_line(line: Line) -> bool
    ensures yes { result ≡ true → IsLine line }
    ensures no { result ≡ false → ¬ IsLine line }
{
    match line {
        Line::Sites(opening) => is_opened(opening),
        Line::Event(event) => is_event(event),
        Line::Show(_) => true,
        Line::Back(_) => true,
    }
}

/// Checks whether the pages and frames are in range.
pub(crate) fn is_opened(opening: Opening) -> bool
    ensures yes { result ≡ true → IsOpened opening.preset opening.frames }
    ensures no { result ≡ false → ¬ IsOpened opening.preset opening.frames }
{
    match (opening.preset, opening.frames) {
        (None, None) => true,
        (None, Some(_)) => false,
        (Some(pages), None) => pages >= 1 && pages <= PAGES,
        (Some(pages), Some(frames)) => {
            pages >= 1 && pages <= PAGES && frames >= 1 && frames <= MAX_FRAMES
        }
    }
}

fn is_event(event: Event) -> bool
    ensures yes { result ≡ true → IsEvent event }
    ensures no { result ≡ false → ¬ IsEvent event }
{
    match event {
        Event::Load { .. } => true,
        Event::Store { .. } => true,
        Event::Begin { request, .. } => is_request(request),
        Event::Tick { .. } => true,
        Event::Restart { .. } => true,
        Event::Deliver(number) => number <= u32::MAX as u64,
        Event::Repeat(number) => number <= u32::MAX as u64,
        Event::Lose(number) => number <= u32::MAX as u64,
    }
}

fn is_request(request: Request) -> bool
    ensures yes { result ≡ true → IsRequest request }
    ensures no { result ≡ false → ¬ IsRequest request }
{
    match request {
        Request::Op(op) => is_call(op),
        Request::DetachAt(_) => true,
    }
}

fn is_call(op: Op) -> bool
    ensures yes { result ≡ true → IsRequest (OpRequest op) }
    ensures no { result ≡ false → ¬ IsRequest (OpRequest op) }
{
    match op {
        Op::Get { flags, .. } => flags.0 % 512 == 0 && flags.0 < 2048,
        Op::Attach { .. } => true,
        Op::Detach { .. } => false,
        Op::Remove { .. } => true,
        Op::Set { .. } => true,
        Op::Stat { .. } => true,
    }
}
