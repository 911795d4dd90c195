//! A whole script, from a reader, as a picture, to a writer.
ghost use Rattle.std.specs.Prelude.{◌≡◌, ◌≤◌, ℕ, List, Some, Ok, Err, IfErr, IfOk, IfSome, length, string_bytes};
ghost use Rattle.std.specs.Io.KnownBytes.{Appends, Consumes};
ghost use Rattle.shm_model.specs.World as model;
ghost use Rattle.shm_debug.specs.Limits.{max_bytes};
ghost use Rattle.shm_debug.specs.Reading.{Ended};
ghost use Rattle.shm_debug.specs.Script.{script_of};
ghost use Rattle.shm_debug.specs.declared.script_summary_and_error.Summary.{Summary};
ghost use Rattle.shm_draw.specs.Captions.{besides_of};
ghost use Rattle.shm_draw.specs.Drawn.{BeganRight, Draws, LeadsTo, Stopped, drawing};

use crate::caption::Caption;
use crate::svg_picture::picture_of;
use shm_debug::{DebugFault, Player, Session};
use shm_lines::laws::lines_have_one_spelling;
use shm_place::PageId;
use shm_text::{Text, read_up_to, write_whole};
use shm_world::World;
use std::alloc::{AllocError, Allocator};
use std::io::{Read, Write};

/// How many bytes are read at once.
const CHUNK: usize = 8192;

/// The room for the answers of a block at the start, in bytes. They are not written.
const ROOM: usize = 1 << 16;

/// The room for a line at the start, in bytes.
const LINE: usize = 512;

/// Draws the run that stands at the end of the script read from `reader`, and writes the picture to `writer`: that of the page, or of each
/// page that the run touches; with these captions.
///
/// It reads the script up to its end or to its first fault, and a little further, and writes nothing before. After an error of the reader
/// it draws nothing. After an error of the writer, or a write of nothing, a front of the picture may have been written. It flushes the
/// writer at the end.
pub fn draw<A: Allocator + Copy, R: Read, W: Write>(
    alloc: A,
    reader: &mut R,
    writer: &mut W,
    page: Option<PageId>,
    captions: &[Caption<'_>],
) -> Result<(), DebugFault>
    ensures ends { IfSome (R.remaining reader.old) (λ bytes.
        (text : List ℕ) × Appends (W.contents writer.old) (W.contents writer.new) text × Draws page (besides_of captions.now) (script_of bytes) result text) }
    ensures limit { (taken : List ℕ) × Consumes (R.remaining reader.old) (R.remaining reader.new) taken × (length taken ≤ max_bytes) }
{
    let player = match read_script(alloc, reader) {
        Ok(player) => player,
        Err(fault) => return Err(fault),
    };
    let Ok(picture) = player_picture(alloc, &player, page, captions) else {
        return Err(DebugFault::OutOfMemory);
    };
    match write_whole(writer, picture.as_bytes()) {
        Ok(()) => {}
        Err(_) => return Err(DebugFault::WriteFault),
    }
    match writer.flush() {
        Ok(()) => Ok(()),
        Err(_) => Err(DebugFault::WriteFault),
    }
}

/// Reads a whole script, block by block; its answers are not kept. The player is at its end. It reads up to the script's end or to its first
/// fault, and a little further.
pub fn read_script<A: Allocator + Copy, R: Read>(
    alloc: A,
    reader: &mut R,
) -> Result<Player<A>, DebugFault>
    ensures ok { IfSome (R.remaining reader.old) (λ bytes. IfOk result (λ player. LeadsTo (script_of bytes) player.standing)) }
    ensures began { IfOk result (λ player. BeganRight player.standing) }
    ensures fault { IfSome (R.remaining reader.old) (λ bytes. IfErr result (Stopped (script_of bytes))) }
    ensures limit { (taken : List ℕ) × Consumes (R.remaining reader.old) (R.remaining reader.new) taken × (length taken ≤ max_bytes) }
{
    lines_have_one_spelling();
    let Ok(mut told) = Text::new(alloc, ROOM, LINE) else {
        return Err(DebugFault::OutOfMemory);
    };
    let Ok(mut player) = Player::new(alloc) else {
        return Err(DebugFault::OutOfMemory);
    };
    let mut chunk = [0u8; CHUNK];
    'chunks: loop {
        let Ok(count) = read_up_to(reader, &mut chunk, player.room()) else {
            return Err(DebugFault::ReadFault);
        };
        if count == 0 {
            return whole(player);
        }
        match player.play(&chunk[..count], &mut told) {
            Ok(()) => {}
            Err(fault) => return Err(fault),
        }
        told.clear();
    }
}

/// The player, if the input ends where a script may.
fn whole<A: Allocator + Copy>(player: Player<A>) -> Result<Player<A>, DebugFault>
    ensures ok { IfOk result (λ p. (p ≡ player) × ((summary : Summary) × Ended player (Ok summary))) }
    ensures err { IfErr result (λ fault. Ended player (Err fault)) }
{
    match player.finish() {
        Ok(_) => Ok(player),
        Err(fault) => Err(fault),
    }
}

/// The picture of what stands, or nothing where nothing does.
fn player_picture<A: Allocator + Copy>(
    alloc: A,
    player: &Player<A>,
    page: Option<PageId>,
    captions: &[Caption<'_>],
) -> Result<String<A>, AllocError>
    requires { BeganRight player.now.standing }
    ensures { IfOk result (λ picture. string_bytes picture ≡ drawing page (besides_of captions.now) player.now.standing) }
{
    match player.session() {
        Some(session) => session_picture(alloc, session, page, captions),
        None => Ok(String::new(alloc)),
    }
}

fn session_picture<A: Allocator + Copy>(
    alloc: A,
    session: &Session<A>,
    page: Option<PageId>,
    captions: &[Caption<'_>],
) -> Result<String<A>, AllocError>
    requires { model.IsOpening session.now.opening }
    ensures { IfOk result (λ picture. string_bytes picture ≡ drawing page (besides_of captions.now) (Some session.now)) }
{
    let world = World::begin(alloc, &session.opening())?;
    picture_of(alloc, &world, session.events(), page, captions)
}
