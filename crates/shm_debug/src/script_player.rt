//! A script that is read block by block, and what its lines make of a session.
ghost use Rattle.std.specs.Prelude.{◌≡◌, ◌==◌, ◌+◌, ◌<◌, ◌≤◌, ◌∷◌, ◌++◌, ℕ, List, [], All, length, false, true, Err, IfErr, IfNone, IfOk, IfSome, OnErr, OnOk};
ghost use Rattle.std.specs.Option.{option_copied};
ghost use Rattle.shm_lines.specs.Line.{may_stand};
ghost use Rattle.shm_lines.specs.Spelling.{IsLine};
ghost use Rattle.shm_text.specs.Text.{line_text};
ghost use Rattle.shm_debug.specs.Limits.{max_bytes, max_line_bytes, max_lines};
ghost use Rattle.shm_debug.specs.Reading.{start, reach, rest_of, gathered, passed, Plays, Fails, Completes, Ended};
ghost use Rattle.shm_debug.specs.Said.{said};
ghost use Rattle.shm_debug.specs.Script;

use crate::Session;
use crate::play_line::{pass_line, summary};
use crate::script_summary_and_error::{DebugFault, Summary};
use memchr::memchr;
use shm_lines::{Line, laws, parse_line};
use shm_text::Text;
use std::alloc::{AllocError, Allocator};
use std::marker::Model;

/// How many bytes a line has at most, without its line feed.
const MAX_LINE_BYTES: usize = 200;

/// How many lines a script has at most.
const MAX_LINES: u64 = 100_000;

/// How many bytes of a script are read at most: one more than all its lines can have.
const MAX_BYTES: usize = 20_100_001;

/// A script that is being read. A line is read where it lies, unless its front came with an earlier block: that is kept in `line`.
#[derive(Drop)]
pub struct Player<A: Allocator + Copy> {
    session: Option<Session<A>>,
    lines: u64,
    line: Vec<u8, A>,
}

impl<A: Allocator + Copy> Model for Player<A> {
    ghost use Rattle.shm_debug.specs.Reading.{Moment, IsBeingRead};

    ghost Value = { Moment };

    ghost view = { λ p. record { lines = p.lines; standing = p.session; line = p.line.items } };

    ghost invariant = { λ p. IsBeingRead p.lines p.session p.line.items };
}

impl<A: Allocator + Copy> Player<A> {
    /// Begins a script, with room for a line.
    pub fn new(alloc: A) -> Result<Player<A>, AllocError>
        ensures { IfOk result (λ player. player ≡ start) }
    {
        let line = Vec::with_capacity(alloc, MAX_LINE_BYTES)?;
        Ok(Player {
            session: None,
            lines: 0,
            line,
        })
    }

    /// The session after the whole lines that were read; `None`: there was no line yet.
    pub fn session(&self) -> Option<&Session<A>>
        ensures { option_copied result ≡ self.now.standing }
    {
        self.session.as_ref()
    }

    /// How many bytes may still be read. The line that is being read is none yet.
    pub fn room(&self) -> usize
        ensures room { reach self.now + result ≡ max_bytes }
        ensures some { 1 ≤ result }
        ensures none_yet { (rest_of self.now []).lines ≡ [] }
    {
        MAX_BYTES - self.lines as usize * (MAX_LINE_BYTES + 1) - self.line.len()
    }

    /// Reads the bytes on, and answers the lines that they end.
    pub fn play(&mut self, bytes: &[u8], output: &mut Text<A>) -> Result<(), DebugFault>
        ensures ok { OnOk result (Plays self.old bytes.now self.new output.old output.new) }
        ensures err { IfErr result (λ fault. Fails self.old bytes.now fault output.old output.new) }
    {
        let mut rest = bytes;
        'lines: loop {
            let Some((line, others)) = cut_line(rest) else {
                return self.gather(rest);
            };
            match self.end_line(line, output) {
                Ok(()) => {}
                Err(fault) => return Err(fault),
            }
            rest = others;
        }
    }

    /// The input's end: what the script was, unless it stops inside a line.
    pub fn finish(&self) -> Result<Summary, DebugFault>
        ensures { Ended self.now result }
    {
        if self.lines == 0 {
            return Err(DebugFault::BadLine(self.lines + 1));
        }
        if !self.line.is_empty() {
            return Err(DebugFault::BadLine(self.lines + 1));
        }
        Ok(summary(self.lines, &self.session))
    }

    /// These bytes and a line feed come: the line ends with them.
    #[inline(always)]
    fn end_line(&mut self, bytes: &[u8], output: &mut Text<A>) -> Result<(), DebugFault>
        requires { All (λ byte. (byte == 10) ≡ false) bytes.now }
        ensures ok { OnOk result (Plays self.old (bytes.now ++ 10 ∷ []) self.new output.old output.new) }
        ensures err { IfErr result (λ fault. Fails self.old (bytes.now ++ 10 ∷ []) fault output.old output.new) }
    {
        match self.complete(bytes) {
            Ok(line) => match self.pass(line, output) {
                Ok(()) => Ok(()),
                Err(_) => Err(DebugFault::OutOfMemory),
            },
            Err(fault) => Err(fault),
        }
    }

    /// The line that ends with these bytes. They are gathered only where its front was.
    #[inline(always)]
    fn complete(&mut self, bytes: &[u8]) -> Result<Line, DebugFault>
        requires { All (λ byte. (byte == 10) ≡ false) bytes.now }
        ensures ok { IfOk result (λ line. Completes self.old bytes.now line) }
        ensures lines { OnOk result (self.new.lines ≡ self.old.lines) }
        ensures standing { OnOk result (self.new.standing ≡ self.old.standing) }
        ensures err { IfErr result (λ fault. (text : List ℕ) → Fails self.old (bytes.now ++ 10 ∷ []) fault text text) }
    {
        laws::lines_have_one_spelling();
        if self.line.is_empty() {
            return read_line(self.lines + 1, bytes);
        }
        match self.gather(bytes) {
            Ok(()) => self.read_gathered(),
            Err(fault) => Err(fault),
        }
    }

    /// Reads the gathered bytes as a line, where a line feed follows.
    fn read_gathered(&self) -> Result<Line, DebugFault>
        ensures { result ≡ Script.read_line (self.now.lines + 1) self.now.line }
    {
        read_line(self.lines + 1, self.line.as_slice())
    }

    /// Keeps bytes of a line whose end is still to come.
    fn gather(&mut self, bytes: &[u8]) -> Result<(), DebugFault>
        requires { All (λ byte. (byte == 10) ≡ false) bytes.now }
        ensures ok { OnOk result (self.new ≡ gathered self.old bytes.now) }
        ensures err { IfErr result (λ fault. (text : List ℕ) → Fails self.old bytes.now fault text text) }
    {
        if bytes.is_empty() {
            return Ok(());
        }
        match check_limits(self.lines + 1, self.line.len() + bytes.len()) {
            Ok(()) => {}
            Err(fault) => return Err(fault),
        }
        match self.line.extend_from_slice(bytes) {
            Ok(()) => Ok(()),
            Err(_) => Err(DebugFault::OutOfMemory),
        }
    }

    /// Goes on to the next line, and answers this one.
    #[inline(always)]
    fn pass(&mut self, line: Line, output: &mut Text<A>) -> Result<(), AllocError>
        requires within { self.old.lines < max_lines }
        requires stands { may_stand (self.old.lines + 1) line ≡ true }
        requires is_line { IsLine line }
        ensures told { OnOk result (output.new ≡ output.old ++ line_text (self.old.lines + 1) (said self.old.standing line)) }
        ensures passed { OnOk result (self.new ≡ passed self.old line) }
        ensures err { OnErr result (output.new ≡ output.old) }
    {
        let alloc = *self.line.allocator();
        let number = self.lines + 1;
        pass_line(&mut self.session, alloc, number, line, output)?;
        self.lines = number;
        self.line.clear();
        Ok(())
    }
}

/// Reads these bytes as the line of this number.
#[inline(always)]
fn read_line(number: u64, bytes: &[u8]) -> Result<Line, DebugFault>
    ensures { result ≡ Script.read_line number bytes.now }
{
    match check_limits(number, bytes.len()) {
        Ok(()) => {}
        Err(fault) => return Err(fault),
    }
    let Ok(line) = parse_line(bytes) else {
        return Err(DebugFault::BadLine(number));
    };
    if !line.may_stand(number) {
        return Err(DebugFault::BadLine(number));
    }
    Ok(line)
}

/// Checks that a line of this number may have this many bytes. If not, each line that has as many or more has this fault.
#[inline(always)]
fn check_limits(number: u64, len: usize) -> Result<(), DebugFault>
    ensures number { OnOk result (number ≤ max_lines) }
    ensures len { OnOk result (len ≤ max_line_bytes) }
    ensures err { IfErr result (λ fault. (line : List ℕ) → len ≤ length line → Script.read_line number line ≡ Err fault) }
{
    if number > MAX_LINES {
        return Err(DebugFault::TooManyLines);
    }
    if len > MAX_LINE_BYTES {
        return Err(DebugFault::LineTooLong(number));
    }
    Ok(())
}

/// Splits the bytes at the first line feed.
fn cut_line(bytes: &[u8]) -> Option<(&[u8], &[u8])>
    ensures cut { IfSome result (λ cut. bytes.now ≡ cut.0.now ++ 10 ∷ cut.1.now) }
    ensures first { IfSome result (λ cut. All (λ byte. (byte == 10) ≡ false) cut.0.now) }
    ensures none { IfNone result (All (λ byte. (byte == 10) ≡ false) bytes.now) }
{
    let at = memchr(b'\n', bytes)?;
    Some((&bytes[..at], &bytes[at + 1..]))
}
