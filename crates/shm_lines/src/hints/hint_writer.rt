//! Writes a hint.
ghost use Rattle.std.specs.Prelude.{◌≡◌, ◌∷◌, ◌≤◌, [], length, OnOk};
ghost use Rattle.std.specs.Io.KnownBytes.{Appends};
ghost use Rattle.std.specs.Char.{encode_utf8};
ghost use Rattle.shm_lines.specs.Hints.{blanks_at, hint_text, shown_byte, shown_from, shown_to};

use crate::hints::hint::Hint;
use std::fmt;
use std::io::{self, Write};

/// The most bytes of a line that are shown before the place that can't be read on.
const BEFORE: usize = 72;

/// The most bytes of a line that are shown from there on.
const AFTER: usize = 40;

/// Writes the line, below it a caret under the first byte that doesn't fit, and what could stand there. Of a long line it shows the part
/// round that byte, with `..` where something is left out. It shows a byte that isn't printable ASCII as `?`.
pub fn write_hint<W: Write>(writer: &mut W, line: &[u8], hint: &Hint) -> io::Result<()>
    ensures { OnOk result (Appends (W.contents writer.old) (W.contents writer.new) (hint_text line.now hint.now)) }
{
    let place = hint.at.min(line.len());
    let part = Part { line, place };
    let blanks = Blanks(part.blanks());
    writeln!(writer, "{part}\n{blanks}^ {}", hint.expected)
}

/// The part of a line round a place in it.
#[derive(Clone, Copy)]
struct Part<'a> {
    line: &'a [u8],
    place: usize,
    ghost within: { place ≤ length line.now },
}

impl Part<'_> {
    /// Where it begins.
    fn start(&self) -> usize
        ensures start { result ≡ shown_from self.now.place }
        ensures before { result ≤ self.now.place }
    {
        self.place.saturating_sub(BEFORE)
    }

    /// Where it ends.
    fn end(&self) -> usize
        ensures end { result ≡ shown_to self.now.place (length self.now.line.now) }
        ensures behind { self.now.place ≤ result }
        ensures within { result ≤ length self.now.line.now }
    {
        if self.line.len() - self.place > AFTER {
            return self.place + AFTER;
        }
        self.line.len()
    }

    /// How many blanks stand before the caret.
    fn blanks(&self) -> usize
        ensures { result ≡ blanks_at self.now.place }
    {
        let start = self.start();
        if start > 0 {
            return self.place - start + 2;
        }
        self.place
    }
}

impl fmt::Display for Part<'_> {
    ghost use Rattle.std.specs.Prelude.{Some};
    ghost use Rattle.shm_lines.specs.Hints.{part_text};

    ghost output = { λ part. Some (part_text part.line.now part.place) };

    fn fmt<W: fmt::Write>(&self, f: &mut fmt::Formatter<W>) -> fmt::Result {
        let start = self.start();
        let end = self.end();
        let before = Dots(start > 0);
        let bytes = ShownBytes(&self.line[start..end]);
        let behind = Dots(end < self.line.len());
        write!(f, "{before}{bytes}{behind}")
    }
}

/// Dots where something is left out.
#[derive(Clone, Copy)]
struct Dots(bool);

impl fmt::Display for Dots {
    ghost use Rattle.std.specs.Prelude.{Some};
    ghost use Rattle.shm_lines.specs.Hints.{dots};

    ghost output = { λ left_out. Some (dots left_out.0) };

    fn fmt<W: fmt::Write>(&self, f: &mut fmt::Formatter<W>) -> fmt::Result {
        if self.0 {
            return write!(f, "..");
        }
        Ok(())
    }
}

/// Bytes, each as it is shown.
#[derive(Clone, Copy)]
struct ShownBytes<'a>(&'a [u8]);

impl fmt::Display for ShownBytes<'_> {
    ghost use Rattle.std.specs.Prelude.{Some, map};
    ghost use Rattle.shm_lines.specs.Hints.{shown_byte};

    ghost output = { λ shown. Some (map shown_byte shown.0.now) };

    fn fmt<W: fmt::Write>(&self, f: &mut fmt::Formatter<W>) -> fmt::Result {
        'bytes: for byte in self.0 {
            f.write_char(shown(*byte))?;
        }
        Ok(())
    }
}

/// The byte as it is shown.
fn shown(byte: u8) -> char
    ensures { encode_utf8 result ≡ shown_byte byte ∷ [] }
{
    if byte >= b' ' && byte <= b'~' {
        return byte as char;
    }
    '?'
}

#[derive(Clone, Copy)]
struct Blanks(usize);

impl fmt::Display for Blanks {
    ghost use Rattle.std.specs.Prelude.{Some, replicate};

    ghost output = { λ blanks. Some (replicate blanks.0 32) };

    fn fmt<W: fmt::Write>(&self, f: &mut fmt::Formatter<W>) -> fmt::Result {
        'blanks: for _ in 0..self.0 {
            f.write_str(" ")?;
        }
        Ok(())
    }
}
