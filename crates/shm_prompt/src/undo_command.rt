//! `undo`: takes back the last event that changed something, and says which.
ghost use Rattle.std.specs.Prelude.{◌≡◌, ◌+◌, ◌≤◌, ◌++◌, ◌⊎◌, OnErr, OnOk, length, slice_get};
ghost use Rattle.shm_debug.specs.Standing.{first_events};
ghost use Rattle.shm_text.specs.Text.{line_text};
ghost use Rattle.shm_prompt.specs.Undo.{told_at, told_by, told_of_undo, unchanged_text, undone, undone_at, undone_by, undone_text};

use crate::last_change::last_change;
use crate::output_line::{last_line, tell_line};
use shm_debug::Session;
use shm_lines::Line;
use shm_model::Event;
use std::alloc::{AllocError, Allocator};

/// Takes back the last event that changed something, and what stands behind it. Where none did, all stay.
pub(crate) fn undo_on<A: Allocator + Copy>(
    session: &mut Session<A>,
    alloc: A,
    out: &mut Vec<u8, A>,
) -> Result<(), AllocError>
    ensures told { OnOk result (out.new.items ≡ out.old.items ++ told_of_undo session.old) }
    ensures next { OnOk result (session.new ≡ undone session.old) }
    ensures halted { OnErr result ((session.new ≡ session.old) ⊎ (session.new ≡ undone session.old)) }
{
    let found = last_change(alloc, session.opening(), session.events())?;
    undo_found(session, alloc, found, out)
}

/// Goes back to before the event in this place, if there is one.
fn undo_found<A: Allocator + Copy>(
    session: &mut Session<A>,
    alloc: A,
    found: Option<usize>,
    out: &mut Vec<u8, A>,
) -> Result<(), AllocError>
    ensures told { OnOk result (out.new.items ≡ out.old.items ++ told_by session.old found) }
    ensures next { OnOk result (session.new ≡ undone_by session.old found) }
    ensures halted { OnErr result ((session.new ≡ session.old) ⊎ (session.new ≡ undone_by session.old found)) }
{
    match found {
        None => tell_unchanged(session, out),
        Some(place) => undo_at(session, alloc, place, out),
    }
}

fn undo_at<A: Allocator + Copy>(
    session: &mut Session<A>,
    alloc: A,
    place: usize,
    out: &mut Vec<u8, A>,
) -> Result<(), AllocError>
    ensures told { OnOk result (out.new.items ≡ out.old.items ++ told_at session.old place (slice_get session.old.events place)) }
    ensures next { OnOk result (session.new ≡ undone_at session.old place (slice_get session.old.events place)) }
    ensures halted { OnErr result ((session.new ≡ session.old)
        ⊎ (session.new ≡ undone_at session.old place (slice_get session.old.events place))) }
{
    match event_at(session, place) {
        None => tell_unchanged(session, out),
        Some(event) => {
            go_back_to(session, place)?;
            tell_undone(session, alloc, place, event, out)
        }
    }
}

/// The event in this place, from 0.
fn event_at<A: Allocator + Copy>(session: &Session<A>, place: usize) -> Option<Event>
    ensures { result ≡ slice_get session.now.events place }
{
    session.events().get(place).copied()
}

/// Takes the events from this place on back.
fn go_back_to<A: Allocator + Copy>(session: &mut Session<A>, place: usize) -> Result<(), AllocError>
    requires { place ≤ length session.old.events }
    ensures ok { OnOk result (session.new ≡ first_events place session.old) }
    ensures err { OnErr result (session.new ≡ session.old) }
{
    let Ok(count) = u32::try_from(session.events().len() - place) else {
        return Err(AllocError);
    };
    match session.back(count) {
        Ok(_) => Ok(()),
        Err(_) => Err(AllocError),
    }
}

fn tell_undone<A: Allocator + Copy>(
    session: &Session<A>,
    alloc: A,
    place: usize,
    event: Event,
    out: &mut Vec<u8, A>,
) -> Result<(), AllocError>
    ensures { OnOk result (out.new.items ≡ out.old.items ++ line_text (length session.now.events + 1) (undone_text place event)) }
{
    let line = Line::Event(event);
    let text = format!(in alloc; "back {place}: {line}")?;
    tell_line(out, last_line(session), text.as_bytes())
}

fn tell_unchanged<A: Allocator + Copy>(
    session: &Session<A>,
    out: &mut Vec<u8, A>,
) -> Result<(), AllocError>
    ensures { OnOk result (out.new.items ≡ out.old.items ++ line_text (length session.now.events + 1) unchanged_text) }
{
    tell_line(
        out,
        last_line(session),
        b"refused 28: no event that stands has changed anything",
    )
}
