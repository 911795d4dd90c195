//! Reading and writing where an error of any kind is a fault. Nothing is tried again.
ghost use Rattle.std.specs.Prelude.{◌≡◌, ◌≤◌, ◌<◌, ℕ, IfOk, OnErr, OnOk, length, take};
ghost use Rattle.std.specs.Io.KnownBytes.{Appends, Consumes, Keeps, IsAtEnd};

use std::io::{self, Read, Write};

/// The writer answered an error, or took nothing.
#[derive(Clone, Copy, Debug)]
pub struct NotWritten;

/// Reads once, into the front of a chunk, at most `most` bytes; 0 means the end.
///
/// It returns any error as it came, even an interruption: nothing is tried again.
pub fn read_up_to<R: Read>(reader: &mut R, chunk: &mut [u8], most: usize) -> io::Result<usize>
    ensures most { IfOk result (λ count. count ≤ most) }
    ensures chunk { IfOk result (λ count. count ≤ length chunk.new) }
    ensures bytes { IfOk result (λ count. Consumes (R.remaining reader.old) (R.remaining reader.new) (take count chunk.new)) }
    ensures end { 0 < most → 0 < length chunk.old → IfOk result (λ count. count ≡ 0 → IsAtEnd (R.remaining reader.new)) }
    ensures err { OnErr result (Keeps (R.remaining reader.old) (R.remaining reader.new)) }
{
    let room = chunk.len().min(most);
    reader.read(&mut chunk[..room])
}

/// Writes the whole text, in as many writes as it takes.
///
/// An error of any kind ends it, an interruption too, and nothing is tried again; a write that takes nothing is a failure. Then a
/// front of the text may have been written.
pub fn write_whole<W: Write>(writer: &mut W, text: &[u8]) -> Result<(), NotWritten>
    ensures ok { OnOk result (Appends (W.contents writer.old) (W.contents writer.new) text.now) }
    ensures err { OnErr result ((n : ℕ) × Appends (W.contents writer.old) (W.contents writer.new) (take n text.now)) }
{
    let mut done = 0;
    while done < text.len() {
        match writer.write(&text[done..]) {
            Ok(0) => return Err(NotWritten),
            Err(_) => return Err(NotWritten),
            Ok(count) => done += count,
        }
    }
    Ok(())
}
