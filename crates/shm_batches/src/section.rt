//! What is read of a journal since its last mark.
ghost use Rattle.std.specs.Prelude.{◌≡◌, ◌≤◌, length, drop};
ghost use Rattle.shm_batches.specs.UnmarkedLine.{IsOneLine};

use crate::batch_error::BatchFault;
use crate::chain::begins_as_mark;
use std::alloc::{Allocator, Global};
use std::io::BufRead;

/// What was read last.
#[derive(Clone, Copy, Debug, PartialEq, Eq)]
pub(crate) enum Read {
    /// The front of a line.
    Part,
    /// A line that doesn't begin as a mark, to its end. It has joined the lines.
    Line,
    /// A line that begins as a mark, to its end.
    Mark,
    /// Nothing: no bytes are left.
    End,
}

/// Lines, with their line feeds, and behind them a line that begins as a mark, or the front of a line.
#[derive(Drop)]
pub(crate) struct Section<A: Allocator + Copy = Global> {
    text: Vec<u8, A>,
    at: usize,
    ghost within: { at ≤ length text.items },
    ghost one: { IsOneLine (drop at text.items) },
}

impl<A: Allocator + Copy> Section<A> {
    ghost use Rattle.std.specs.Prelude.{◌-◌, ◌&&◌, [], take, false, true, IfOk};
    ghost use Rattle.shm_batches.specs.Section.{ReadsOn, lines_in, open_in};
    ghost use Rattle.shm_batches.specs.UnmarkedLine.{is_ended};
    ghost use Rattle.shm_batches.specs.Chain as spec;

    /// Nothing was read yet.
    pub(crate) fn new(alloc: A) -> Section<A>
        ensures lines { lines_in result ≡ [] }
        ensures open { open_in result ≡ [] }
    {
        Section {
            text: Vec::new(alloc),
            at: 0,
        }
    }

    /// How many bytes were read.
    pub(crate) fn len(&self) -> usize
        ensures { result ≡ length self.now.text.items }
    {
        self.text.len()
    }

    /// The lines.
    pub(crate) fn lines(&self) -> &[u8]
        ensures { result.now ≡ lines_in self.now }
    {
        &self.text[..self.at]
    }

    /// What stands behind them, without its last byte: a line, if it has its line feed.
    pub(crate) fn line(&self) -> &[u8]
        ensures { result.now ≡ take (length (open_in self.now) - 1) (open_in self.now) }
    {
        let end = self.text.len().saturating_sub(1).max(self.at);
        &self.text[self.at..end]
    }

    /// Forgets all.
    pub(crate) fn clear(&mut self)
        ensures lines { lines_in self.new ≡ [] }
        ensures open { open_in self.new ≡ [] }
    {
        self.at = 0;
        self.text.clear();
    }

    /// Whether what stands behind the lines is a whole line.
    fn is_line(&self) -> bool
        ensures { result ≡ is_ended (open_in self.now) }
    {
        self.text[self.at..].ends_with(b"\n".as_slice())
    }

    /// Reads a line, or the rest of one.
    pub(crate) fn read<B: BufRead>(&mut self, reader: &mut B) -> Result<Read, BatchFault>
        requires { is_ended (open_in self.old) ≡ false }
        ensures { IfOk result (λ read. ReadsOn read self.old self.new (B.remaining reader.old) (B.remaining reader.new)) }
    {
        let Ok(count) = reader.read_until(b'\n', &mut self.text) else {
            return Err(BatchFault::ReadFault);
        };
        if count == 0 {
            return Ok(Read::End);
        }
        if !self.is_line() {
            return Ok(Read::Part);
        }
        if begins_as_mark(self.line()) {
            return Ok(Read::Mark);
        }
        self.at = self.len();
        Ok(Read::Line)
    }
}
