//! A reader's bytes, a line at a time.
ghost use Rattle.std.specs.Prelude.{◌≡◌, ◌+◌, ◌<◌, ◌≤◌, [], length};
ghost use Rattle.shm_journal.specs.Found.{max_journal_line};

use crate::journal_error::JournalFault;
use crate::line_read_outcome::Taken;
use memchr::memchr;
use shm_text::read_up_to;
use std::alloc::{Allocator, Global};
use std::io::Read;

/// How many bytes a line has at most, less its line feed: `step `, the greatest clock, a blank, and the longest line that a site takes.
pub const MAX_LINE_BYTES: usize = 8218;

/// How many bytes are read at once.
const CHUNK: usize = 8192;

/// The bytes that were read last: those from `at` on aren't taken yet. The line that was taken last lies there whole, `len` bytes from `from`
/// on, unless its front came with an earlier read: then it was copied to `front`.
#[derive(Drop)]
pub struct Lines<A: Allocator + Copy = Global> {
    front: Vec<u8, A>,
    bytes: Vec<u8, A>,
    from: usize,
    len: usize,
    at: usize,
    whole: u64,
    ghost once: { length bytes.items ≤ 8192 },
    ghost short: { length front.items + len ≤ max_journal_line },
    ghost lies: { from + len ≤ length bytes.items },
    ghost in_one: { 0 < len → front.items ≡ [] },
}

impl<A: Allocator + Copy> Lines<A> {
    ghost use Rattle.std.specs.Prelude.{◌∷◌, ◌++◌, ◌==◌, All, drop, false, take, true, ℕ, Option, List, IfErr, IfNone, IfOk, IfSome, OnErr, OnOk};
    ghost use Rattle.std.specs.Io.KnownBytes.{IsAtEnd, Keeps};
    ghost use Rattle.shm_journal.specs.LinesOf.{behind, is_used_up, left_of, line_in, Unended};
    ghost use Rattle.shm_journal.specs.Taking.{BreaksOff, IsOther, ReadsOver, Takes, TakesPart, whole_with};

    /// A reader's lines, before any was read.
    pub fn new(alloc: A) -> Lines<A>
        ensures left { (remaining : Option (List ℕ)) → left_of result remaining ≡ remaining }
        ensures whole { result.whole ≡ 0 }
    {
        Lines {
            front: Vec::new(alloc),
            bytes: Vec::new(alloc),
            from: 0,
            len: 0,
            at: 0,
            whole: 0,
        }
    }

    /// The line that was taken last, without its line feed, or its front.
    pub fn line(&self) -> &[u8]
        ensures { result.now ≡ line_in self.now }
    {
        if self.len == 0 {
            return self.front.as_slice();
        }
        &self.bytes[self.from..self.from + self.len]
    }

    /// How many bytes the whole lines have that were taken, with their line feeds.
    pub fn whole(&self) -> u64
        ensures { result ≡ self.now.whole }
    {
        self.whole
    }

    /// Takes the next line, or as much of it as there is and may be. A byte too many is taken, but not kept.
    pub fn take<R: Read>(&mut self, reader: &mut R) -> Result<Taken, JournalFault>
        ensures takes { IfOk result (λ taken. Takes taken (left_of self.old (R.remaining reader.old)) (left_of self.new (R.remaining reader.new))
            (R.remaining reader.new) (line_in self.new)) }
        ensures unended { OnOk result (Unended (line_in self.new)) }
        ensures short { OnOk result (length (line_in self.new) ≤ max_journal_line) }
        ensures once { OnOk result (length (behind self.new) < 8192) }
        ensures whole { IfOk result (λ taken. self.new.whole ≡ whole_with taken self.old.whole (line_in self.new)) }
        ensures fault { IfErr result (BreaksOff (left_of self.old (R.remaining reader.old)) (R.remaining reader.new)) }
    {
        self.front.clear();
        self.len = 0;
        'reads: for _ in 0..u64::MAX {
            match self.fill(reader) {
                Ok(()) => {}
                Err(fault) => return Err(fault),
            }
            if self.at >= self.bytes.len() {
                return Ok(Taken::Torn);
            }
            match self.take_read() {
                Ok(Taken::Torn) => {}
                Ok(Taken::Whole) => return Ok(Taken::Whole),
                Ok(Taken::TooLong) => return Ok(Taken::TooLong),
                Err(fault) => return Err(fault),
            }
        }
        // No line takes so many reads.
        Err(JournalFault::ReadFault)
    }

    /// Reads more bytes, if all are taken.
    fn fill<R: Read>(&mut self, reader: &mut R) -> Result<(), JournalFault>
        requires { self.old.len ≡ 0 }
        ensures kept { OnOk result (Keeps (left_of self.old (R.remaining reader.old)) (left_of self.new (R.remaining reader.new))) }
        ensures end { OnOk result (is_used_up self.new ≡ true → IsAtEnd (R.remaining reader.new)) }
        ensures front { OnOk result (self.new.front.items ≡ self.old.front.items) }
        ensures len { OnOk result (self.new.len ≡ 0) }
        ensures whole { OnOk result (self.new.whole ≡ self.old.whole) }
        ensures fault { IfErr result (ReadsOver (left_of self.old (R.remaining reader.old)) (R.remaining reader.new)) }
    {
        if self.at < self.bytes.len() {
            return Ok(());
        }
        let mut chunk = [0u8; CHUNK];
        let Ok(count) = read_up_to(reader, &mut chunk, CHUNK) else {
            return Err(JournalFault::ReadFault);
        };
        self.bytes.clear();
        self.from = 0;
        self.at = 0;
        match self.bytes.extend_from_slice(&chunk[..count]) {
            Ok(()) => Ok(()),
            Err(_) => Err(JournalFault::OutOfMemory),
        }
    }

    /// Takes what was read of the line: all of it, a byte too many, or what there is.
    fn take_read(&mut self) -> Result<Taken, JournalFault>
        requires some { self.old.at < length self.old.bytes.items }
        requires begun { self.old.len ≡ 0 }
        ensures ok { IfOk result (λ taken. TakesPart taken self.old self.new) }
        ensures err { IfErr result IsOther }
    {
        match self.line_feed() {
            Some(len) => self.end_line(len),
            None => self.keep_rest(),
        }
    }

    /// The number of bytes before the next line feed.
    fn line_feed(&self) -> Option<usize>
        requires { self.now.at < length self.now.bytes.items }
        ensures cut { IfSome result (λ len. behind self.now ≡ take len (behind self.now) ++ 10 ∷ drop (len + 1) (behind self.now)) }
        ensures unended { IfSome result (λ len. Unended (take len (behind self.now))) }
        ensures within { IfSome result (λ len. len < length (behind self.now)) }
        ensures none { IfNone result (Unended (behind self.now)) }
    {
        memchr(b'\n', &self.bytes[self.at..])
    }

    /// Ends the line after this many bytes. Copies them only where an earlier read has its front.
    fn end_line(&mut self, len: usize) -> Result<Taken, JournalFault>
        requires begun { self.old.len ≡ 0 }
        requires within { len < length (behind self.old) }
        requires cut { behind self.old ≡ take len (behind self.old) ++ 10 ∷ drop (len + 1) (behind self.old) }
        requires unended { Unended (take len (behind self.old)) }
        ensures ok { IfOk result (λ taken. TakesPart taken self.old self.new) }
        ensures err { IfErr result IsOther }
    {
        if self.front.len() + len > MAX_LINE_BYTES {
            return Ok(self.overrun(len));
        }
        let Some(whole) = self.whole.checked_add((self.front.len() + len) as u64 + 1) else {
            return Err(JournalFault::ReadFault);
        };
        let end = self.at + len;
        if self.front.is_empty() {
            self.from = self.at;
            self.len = len;
            self.at = end + 1;
            self.whole = whole;
            return Ok(Taken::Whole);
        }
        match self.front.extend_from_slice(&self.bytes[self.at..end]) {
            Ok(()) => {
                self.at = end + 1;
                self.whole = whole;
                Ok(Taken::Whole)
            }
            Err(_) => Err(JournalFault::OutOfMemory),
        }
    }

    /// All bytes that were read are of the line, which goes on.
    fn keep_rest(&mut self) -> Result<Taken, JournalFault>
        requires some { self.old.at < length self.old.bytes.items }
        requires begun { self.old.len ≡ 0 }
        requires unended { Unended (behind self.old) }
        ensures ok { IfOk result (λ taken. TakesPart taken self.old self.new) }
        ensures err { IfErr result IsOther }
    {
        let len = self.bytes.len() - self.at;
        if self.front.len() + len > MAX_LINE_BYTES {
            return Ok(self.overrun(len));
        }
        match self.front.extend_from_slice(&self.bytes[self.at..]) {
            Ok(()) => {
                self.at = self.bytes.len();
                Ok(Taken::Torn)
            }
            Err(_) => Err(JournalFault::OutOfMemory),
        }
    }

    /// The line has a byte too many among these.
    fn overrun(&mut self, len: usize) -> Taken
        requires begun { self.old.len ≡ 0 }
        requires within { len ≤ length (behind self.old) }
        requires unended { Unended (take len (behind self.old)) }
        requires long { max_journal_line < length self.old.front.items + len }
        ensures { TakesPart result self.old self.new }
    {
        self.at += MAX_LINE_BYTES + 1 - self.front.len();
        Taken::TooLong
    }
}
