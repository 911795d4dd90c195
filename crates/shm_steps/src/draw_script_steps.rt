//! A whole script, from a reader, as a page for a browser, to a writer.
ghost use Rattle.std.specs.Prelude.{◌≡◌, ◌≤◌, ℕ, List, Some, IfOk, IfSome, length, string_bytes};
ghost use Rattle.std.specs.Io.KnownBytes.{Appends, Consumes};
ghost use Rattle.shm_model.specs.World.{IsOpening};
ghost use Rattle.shm_debug.specs.Limits.{max_bytes};
ghost use Rattle.shm_debug.specs.Script.{script_of};
ghost use Rattle.shm_draw.specs.Captions.{besides_of};
ghost use Rattle.shm_draw.specs.Drawn.{BeganRight};
ghost use Rattle.shm_steps.specs.Stepped.{TellsSteps, stepping};

use crate::html_page::page_of;
use shm_debug::{DebugFault, Player, Session};
use shm_draw::{Caption, read_script};
use shm_place::PageId;
use shm_text::write_whole;
use std::alloc::{AllocError, Allocator};
use std::io::{Read, Write};

/// Writes the page of the run that stands at the end of the script read from `reader`: of this page, or of each page that the run touches;
/// its picture has these captions.
///
/// What it reads, and what it has written after an error, is as of [`shm_draw::draw`].
pub fn draw_steps<A: Allocator + Copy, R: Read, W: Write>(
    alloc: A,
    reader: &mut R,
    writer: &mut W,
    page: Option<PageId>,
    captions: &[Caption<'_>],
) -> Result<(), DebugFault>
    ensures ends { IfSome (R.remaining reader.old) (λ bytes.
        (text : List ℕ) × Appends (W.contents writer.old) (W.contents writer.new) text × TellsSteps page (besides_of captions.now) (script_of bytes) result text) }
    ensures limit { (taken : List ℕ) × Consumes (R.remaining reader.old) (R.remaining reader.new) taken × (length taken ≤ max_bytes) }
{
    let player = match read_script(alloc, reader) {
        Ok(player) => player,
        Err(fault) => return Err(fault),
    };
    let Ok(text) = player_page(alloc, &player, page, captions) else {
        return Err(DebugFault::OutOfMemory);
    };
    match write_whole(writer, text.as_bytes()) {
        Ok(()) => {}
        Err(_) => return Err(DebugFault::WriteFault),
    }
    match writer.flush() {
        Ok(()) => Ok(()),
        Err(_) => Err(DebugFault::WriteFault),
    }
}

/// The page of what stands, or nothing where nothing does.
fn player_page<A: Allocator + Copy>(
    alloc: A,
    player: &Player<A>,
    page: Option<PageId>,
    captions: &[Caption<'_>],
) -> Result<String<A>, AllocError>
    requires { BeganRight player.now.standing }
    ensures { IfOk result (λ text. string_bytes text ≡ stepping page (besides_of captions.now) player.now.standing) }
{
    match player.session() {
        Some(session) => session_page(alloc, session, page, captions),
        None => Ok(String::new(alloc)),
    }
}

fn session_page<A: Allocator + Copy>(
    alloc: A,
    session: &Session<A>,
    page: Option<PageId>,
    captions: &[Caption<'_>],
) -> Result<String<A>, AllocError>
    requires { IsOpening session.now.opening }
    ensures { IfOk result (λ text. string_bytes text ≡ stepping page (besides_of captions.now) (Some session.now)) }
{
    page_of(alloc, &session.opening(), session.events(), page, captions)
}
