//! A whole script, from a reader to a writer.
ghost use Rattle.std.specs.Prelude.{◌≡◌, ◌≤◌, ℕ, List, [], Option, Err, IfErr, IfSome, false, length};
ghost use Rattle.std.specs.Io.KnownBytes.{Appends, Consumes, Keeps};
ghost use Rattle.shm_debug.specs.Limits.{max_bytes};
ghost use Rattle.shm_debug.specs.Script.{script_of, Script};
ghost use Rattle.shm_debug.specs.Replay;
ghost use Rattle.shm_debug.specs.Replay.{Ends, Pauses, PausesAllRead, TellsAllRead};
ghost use Rattle.shm_debug.specs.Promise.{AlwaysKept, AlwaysTellsLast};
ghost use Rattle.shm_debug.specs.Told.{ToldLast};

use crate::laws;
use crate::output_buffer::{empty_text, write_and_flush, write_told};
use crate::script_player::Player;
use crate::script_summary_and_error::{DebugFault, Summary};
use shm_text::{Text, read_up_to};
use std::alloc::Allocator;
use std::io::{Read, Write};

/// How many bytes are read at once.
const CHUNK: usize = 8192;

/// Replays a script, which is read from `reader`, and writes the answer to each line to `writer`.
///
/// It reads up to the end or to the first fault, and a little further. Any error of the reader ends the replay, and so does any error of
/// the writer, or a write of nothing. Before each read it writes all output and flushes the writer. It does so at the end too, even after a
/// fault; there a flush that fails counts only where nothing else has failed.
pub fn replay<A: Allocator + Copy, R: Read, W: Write>(
    alloc: A,
    reader: &mut R,
    writer: &mut W,
) -> Result<Summary, DebugFault>
    ensures ends { IfSome (R.remaining reader.old) (λ bytes.
        (text : List ℕ) × Appends (W.contents writer.old) (W.contents writer.new) text × Ends (script_of bytes) result text) }
    ensures limit { (taken : List ℕ) × Consumes (R.remaining reader.old) (R.remaining reader.new) taken × (length taken ≤ max_bytes) }

    // Where reading fails, no whole line that was read is missing.
    ensures read { TellsAllRead (R.remaining reader.old) (R.remaining reader.new) (W.contents writer.old) (W.contents writer.new) result }

    // What was written is output lines, and each byte that a load is told there was stored last to its place.
    ensures told_last { IfSome (R.remaining reader.old) (λ bytes.
        (text : List ℕ) × Appends (W.contents writer.old) (W.contents writer.new) text × ToldLast (script_of bytes) result text) }

    // The headline, of the run of the events that stand, after each line; and each byte that is told was stored last to its place.
    ensures headline { (bytes : List ℕ) → AlwaysKept (script_of bytes).lines }
    ensures last { (bytes : List ℕ) → AlwaysTellsLast (script_of bytes).lines }
{
    laws::every_script_keeps_the_promise();
    let Ok(mut output) = empty_text(alloc) else {
        return flush_at_end(Err(DebugFault::OutOfMemory), writer);
    };
    let played = play_all(alloc, reader, writer, &mut output);
    let ended = write_rest(played, &mut output, writer);
    flush_at_end(ended, writer)
}

/// Writes what is still pending, unless the writer has failed already.
fn write_rest<A: Allocator + Copy, W: Write>(
    played: Result<Summary, DebugFault>,
    output: &mut Text<A>,
    writer: &mut W,
) -> Result<Summary, DebugFault>
    ensures ends { (first : Option (List ℕ)) (script : Script) → Pauses first (W.contents writer.old) output.old script played →
        (text : List ℕ) × Appends first (W.contents writer.new) text × Ends script result text }
    ensures same { Replay.is_write_fault result ≡ false → result ≡ played }
    ensures all { Replay.is_write_fault result ≡ false → Appends (W.contents writer.old) (W.contents writer.new) output.old }
{
    if is_write_fault(&played) {
        return played;
    }
    match write_told(output, writer) {
        Ok(()) => played,
        Err(_) => Err(DebugFault::WriteFault),
    }
}

/// Flushes the writer. That this fails counts only where nothing else has.
fn flush_at_end<W: Write>(
    ended: Result<Summary, DebugFault>,
    writer: &mut W,
) -> Result<Summary, DebugFault>
    ensures keeps { Keeps (W.contents writer.old) (W.contents writer.new) }
    ensures ends { (script : Script) (text : List ℕ) → Ends script ended text → Ends script result text }
    ensures fault { IfErr ended (λ fault. result ≡ Err fault) }
    ensures same { Replay.is_write_fault result ≡ false → result ≡ ended }
{
    let flush = writer.flush();
    match ended {
        Ok(summary) => match flush {
            Ok(()) => Ok(summary),
            Err(_) => Err(DebugFault::WriteFault),
        },
        Err(fault) => Err(fault),
    }
}

/// Checks whether the writer has failed already.
fn is_write_fault(played: &Result<Summary, DebugFault>) -> bool
    ensures { result ≡ Replay.is_write_fault played.now }
{
    match played {
        Ok(_) => false,
        Err(fault) => match fault {
            DebugFault::WriteFault => true,
            _ => false,
        },
    }
}

/// Reads the script block by block, plays each block, and writes its output before it reads the next.
fn play_all<A: Allocator + Copy, R: Read, W: Write>(
    alloc: A,
    reader: &mut R,
    writer: &mut W,
    output: &mut Text<A>,
) -> Result<Summary, DebugFault>
    requires { output.old ≡ [] }
    ensures ends { IfSome (R.remaining reader.old) (λ bytes.
        Pauses (W.contents writer.old) (W.contents writer.new) output.new (script_of bytes) result) }
    ensures read { PausesAllRead (R.remaining reader.old) (R.remaining reader.new) (W.contents writer.old) (W.contents writer.new) output.new result }
    ensures limit { (taken : List ℕ) × Consumes (R.remaining reader.old) (R.remaining reader.new) taken × (length taken ≤ max_bytes) }
{
    let Ok(mut player) = Player::new(alloc) else {
        return Err(DebugFault::OutOfMemory);
    };
    let mut chunk = [0u8; CHUNK];
    'chunks: loop {
        prove_eq!(output.len(), 0);
        let Ok(count) = read_up_to(reader, &mut chunk, player.room()) else {
            return Err(DebugFault::ReadFault);
        };
        if count == 0 {
            return player.finish();
        }
        match player.play(&chunk[..count], output) {
            Ok(()) => {}
            Err(fault) => return Err(fault),
        }
        match write_and_flush(output, writer) {
            Ok(()) => {}
            Err(_) => return Err(DebugFault::WriteFault),
        }
    }
}
