//! A journal's lines without the marks of its batches.
ghost use Rattle.std.specs.Prelude.{◌≡◌, ◌<◌, ◌≤◌, ◌-◌, ◌&&◌, ◌++◌, ℕ, List, [], ◌∷◌, false, true, length, take, drop, IfOk, OnErr};
ghost use Rattle.std.specs.Io.KnownBytes.{Consumes, IsAtEnd, Keeps};
ghost use Rattle.shm_batches.specs.UnmarkedLine.{IsOneLine};
ghost use Rattle.shm_batches.specs.Chain as spec;

use crate::chain::begins_as_mark;
use std::alloc::{Allocator, Global};
use std::io::{self, BufRead, Read};

/// A reader of what another gives, less the lines that begin as marks, and less what stands behind the last line feed. It holds one line at
/// once.
#[derive(Drop)]
pub struct UnmarkedReader<B, A: Allocator + Copy = Global> {
    reader: B,
    /// A line with its line feed, no mark, of which `at` bytes were given; or the front of a line.
    line: Vec<u8, A>,
    at: usize,
    /// The other reader has nothing left.
    is_over: bool,
    ghost within: { at ≤ length line.items },
    ghost one: { IsOneLine line.items },
}

impl<B: BufRead, A: Allocator + Copy> UnmarkedReader<B, A> {
    ghost use Rattle.std.specs.Prelude.{option_map};
    ghost use Rattle.shm_batches.specs.UnmarkedLine.{is_ended, left_of_line};
    ghost use Rattle.shm_batches.specs.UnmarkedOf.{left_unmarked};
    ghost use Rattle.shm_batches.specs.Whole.{unmarked_text};

    /// The lines of this reader.
    pub fn new(alloc: A, reader: B) -> UnmarkedReader<B, A>
        ensures { left_unmarked result (B.remaining result.reader) ≡ option_map unmarked_text (B.remaining reader) }
    {
        UnmarkedReader {
            reader,
            line: Vec::new(alloc),
            at: 0,
            is_over: false,
        }
    }

    /// Whether it has a whole line.
    fn has_line(&self) -> bool
        ensures { result ≡ is_ended self.now.line.items }
    {
        self.line.ends_with(b"\n".as_slice())
    }

    /// Whether it has a whole line that begins as a mark.
    fn has_mark(&self) -> bool
        ensures { result ≡ (is_ended self.now.line.items && spec.begins_as_mark (take (length self.now.line.items - 1) self.now.line.items)) }
    {
        self.has_line() && begins_as_mark(&self.line[..self.line.len() - 1])
    }

    /// Reads until there is something to give. `false`: nothing is left.
    fn advance(&mut self) -> io::Result<bool>
        ensures kept { Keeps (left_unmarked self.old (B.remaining self.old.reader)) (left_unmarked self.new (B.remaining self.new.reader)) }
        ensures some { IfOk result (λ some. some ≡ true → (is_ended self.new.line.items ≡ true) × (self.new.at < length self.new.line.items)) }
        ensures open { IfOk result (λ some. some ≡ true → self.new.is_over ≡ false) }
        ensures none { IfOk result (λ some. some ≡ false → self.new.is_over ≡ true) }
    {
        'lines: for _ in 0..u64::MAX {
            if self.is_over {
                return Ok(false);
            }
            if self.has_line() && self.at < self.line.len() {
                return Ok(true);
            }
            match self.read_line() {
                Ok(()) => {}
                Err(error) => return Err(error),
            }
        }
        // No file has so many lines.
        Err(io::Error::from(io::ErrorKind::Other))
    }

    /// Lets a line go that is given, and reads a line, or the rest of one, or that nothing is left.
    fn read_line(&mut self) -> io::Result<()>
        requires given { is_ended self.old.line.items ≡ true → self.old.at ≡ length self.old.line.items }
        requires open { self.old.is_over ≡ false }
        ensures { Keeps (left_unmarked self.old (B.remaining self.old.reader)) (left_unmarked self.new (B.remaining self.new.reader)) }
    {
        self.leave_line();
        let read = self.reader.read_until(b'\n', &mut self.line);
        self.leave_mark();
        match read {
            Ok(0) => {
                self.is_over = true;
                Ok(())
            }
            Ok(_) => Ok(()),
            Err(error) => Err(error),
        }
    }

    /// Lets a line go of which all was given.
    fn leave_line(&mut self)
        requires { is_ended self.old.line.items ≡ true → self.old.at ≡ length self.old.line.items }
        ensures kept { (rest : List ℕ) → left_of_line self.new.line.items self.new.at rest ≡ left_of_line self.old.line.items self.old.at rest }
        ensures reader { self.new.reader ≡ self.old.reader }
        ensures over { self.new.is_over ≡ self.old.is_over }
        ensures open { is_ended self.new.line.items ≡ false }
        ensures at { self.new.at ≡ 0 }
    {
        self.at = 0;
        if self.has_line() {
            self.line.clear();
        }
    }

    /// Lets a whole line go that begins as a mark.
    fn leave_mark(&mut self)
        ensures kept { (rest : List ℕ) → left_of_line self.new.line.items self.new.at rest ≡ unmarked_text (self.old.line.items ++ rest) }
        ensures reader { self.new.reader ≡ self.old.reader }
        ensures over { self.new.is_over ≡ self.old.is_over }
        ensures same { self.old.line.items ≡ [] → self.new.line.items ≡ [] }
    {
        self.at = 0;
        if self.has_mark() {
            self.line.clear();
        }
    }

    /// Gives as much of its line as there is room for.
    fn give(&mut self, buf: &mut [u8]) -> usize
        requires whole { is_ended self.old.line.items ≡ true }
        requires open { self.old.is_over ≡ false }
        ensures bound { result ≤ length buf.new }
        ensures same { length buf.new ≡ length buf.old }
        ensures given { Consumes (left_unmarked self.old (B.remaining self.old.reader)) (left_unmarked self.new (B.remaining self.new.reader)) (take result buf.new) }
        ensures some { 0 < length buf.old → self.old.at < length self.old.line.items → 0 < result }
    {
        let count = buf.len().min(self.line.len() - self.at);
        buf[..count].copy_from_slice(&self.line[self.at..self.at + count]);
        self.at += count;
        count
    }
}

impl<B: BufRead, A: Allocator + Copy> Read for UnmarkedReader<B, A> {
    ghost use Rattle.shm_batches.specs.UnmarkedOf.{left_unmarked};

    ghost remaining = { λ reader. left_unmarked reader (B.remaining reader.reader) };

    fn read(&mut self, buf: &mut [u8]) -> io::Result<usize> {
        match self.advance() {
            Ok(true) => Ok(self.give(buf)),
            Ok(false) => Ok(0),
            Err(error) => Err(error),
        }
    }
}
