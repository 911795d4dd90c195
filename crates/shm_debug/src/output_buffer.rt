//! Gathers the output for a block of a script, to be written before the next block is read.
ghost use Rattle.std.specs.Prelude.{◌≡◌, ℕ, [], OnOk, OnErr, IfOk, take};
ghost use Rattle.std.specs.Io.KnownBytes.{Appends};

use shm_text::{NotWritten, Text, write_whole};
use std::alloc::{AllocError, Allocator};
use std::io::Write;

/// The room for a block's text at the start, in bytes.
const ROOM: usize = 1 << 16;

/// The room for a line at the start, in bytes.
const LINE: usize = 512;

/// No text yet, with room for what is gathered.
pub fn empty_text<A: Allocator + Copy>(alloc: A) -> Result<Text<A>, AllocError>
    ensures { IfOk result (λ text. text ≡ []) }
{
    Text::new(alloc, ROOM, LINE)
}

/// Writes all output gathered, and empties it.
pub fn write_told<A: Allocator + Copy, W: Write>(
    text: &mut Text<A>,
    writer: &mut W,
) -> Result<(), NotWritten>
    ensures ok { OnOk result (Appends (W.contents writer.old) (W.contents writer.new) text.old) }
    ensures none_left { OnOk result (text.new ≡ []) }
    ensures err { OnErr result ((n : ℕ) × Appends (W.contents writer.old) (W.contents writer.new) (take n text.old)) }
{
    write_whole(writer, text.as_bytes())?;
    text.clear();
    Ok(())
}

/// Writes all output gathered, empties it, and flushes the writer: nobody waits for it while the reader waits.
pub fn write_and_flush<A: Allocator + Copy, W: Write>(
    text: &mut Text<A>,
    writer: &mut W,
) -> Result<(), NotWritten>
    ensures ok { OnOk result (Appends (W.contents writer.old) (W.contents writer.new) text.old) }
    ensures none_left { OnOk result (text.new ≡ []) }
    ensures err { OnErr result ((n : ℕ) × Appends (W.contents writer.old) (W.contents writer.new) (take n text.old)) }
{
    write_told(text, writer)?;
    match writer.flush() {
        Ok(()) => Ok(()),
        Err(_) => Err(NotWritten),
    }
}
