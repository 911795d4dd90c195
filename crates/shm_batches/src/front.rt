//! The front of a journal's file: its whole batches.
ghost use Rattle.std.specs.Prelude.{◌≡◌, Option, List, ℕ, IfOk};
ghost use Rattle.shm_batches.specs.Extent.{Breaks, IsExtentKnown, IsFound, Marks, Measured, MeasuredNext, Seeks, SeeksNext, extent_of};
ghost use Rattle.shm_journal.specs.LinesOf.{Unended};
ghost use Rattle.shm_batches.specs.Section.{open_in};

use crate::batch_error::BatchFault;
use crate::chain::{Chain, marks};
use crate::extent::Extent;
use crate::section::{Read, Section};
use std::alloc::{Allocator, Global};
use std::io::BufRead;

/// What was read last.
#[derive(Clone, Copy, Debug, PartialEq, Eq)]
pub(crate) enum Next {
    /// A line, the front of one, or the mark of a whole batch.
    GoesOn,
    /// Nothing: no bytes are left.
    Ended,
    /// A line that begins as a mark, and isn't the next one.
    Broken,
}

/// The whole batches that were read, and what was read behind them.
#[derive(Drop)]
pub(crate) struct Front<A: Allocator + Copy = Global> {
    chain: Chain,
    bytes: u64,
    section: Section<A>,
}

impl<A: Allocator + Copy> Front<A> {
    /// Nothing was read yet.
    fn new(alloc: A) -> Front<A>
        ensures begun { (before : Option (List ℕ)) → Measured result before before }
        ensures open { Unended (open_in result.section) }
    {
        Front {
            chain: Chain::new(),
            bytes: 0,
            section: Section::new(alloc),
        }
    }
}

/// Reads how far a journal's file is whole, and whether it is damaged behind that. Holds one batch at once.
pub fn measure<A: Allocator + Copy, B: BufRead>(
    alloc: A,
    reader: &mut B,
) -> Result<Extent, BatchFault>
    ensures { IfOk result (IsExtentKnown (B.remaining reader.old)) }
{
    let mut front = Front::new(alloc);
    'lines: for _ in 0..u64::MAX {
        match take_line(alloc, &mut front, reader) {
            Ok(Next::GoesOn) => {}
            Ok(Next::Ended) => return Ok(extent(&front, false)),
            Ok(Next::Broken) => return look_behind(alloc, &front, reader),
            Err(fault) => return Err(fault),
        }
    }
    // No file has so many lines.
    Err(BatchFault::ReadFault)
}

/// The extent of this front's whole batches.
fn extent<A: Allocator + Copy>(front: &Front<A>, is_damaged: bool) -> Extent
    ensures { result ≡ extent_of front.now is_damaged }
{
    Extent {
        chain: front.chain,
        bytes: front.bytes,
        is_damaged,
    }
}

/// Reads a line, or the rest of one.
fn take_line<A: Allocator + Copy, B: BufRead>(
    alloc: A,
    front: &mut Front<A>,
    reader: &mut B,
) -> Result<Next, BatchFault>
    requires { Unended (open_in front.old.section) }
    ensures { (before : Option (List ℕ)) → Measured front.old before (B.remaining reader.old)
        → IfOk result (λ next. MeasuredNext next front.new before (B.remaining reader.new)) }
{
    match front.section.read(reader) {
        Ok(Read::Part) => Ok(Next::GoesOn),
        Ok(Read::Line) => Ok(Next::GoesOn),
        Ok(Read::Mark) => take_mark(alloc, front),
        Ok(Read::End) => Ok(Next::Ended),
        Err(fault) => Err(fault),
    }
}

/// Ends the batch, if the line that was read is its mark.
fn take_mark<A: Allocator + Copy>(alloc: A, front: &mut Front<A>) -> Result<Next, BatchFault>
    ensures { (before left : Option (List ℕ)) → Marks front.old before left → IfOk result (λ next. MeasuredNext next front.new before left) }
{
    let found = front
        .chain
        .next(alloc, front.section.lines(), front.section.line());
    let next = match found {
        Ok(next) => next,
        Err(fault) => return Err(fault),
    };
    let Some(chain) = next else {
        return Ok(Next::Broken);
    };
    let Some(bytes) = front.bytes.checked_add(front.section.len() as u64) else {
        return Err(BatchFault::ReadFault);
    };
    front.chain = chain;
    front.bytes = bytes;
    front.section.clear();
    Ok(Next::GoesOn)
}

/// Looks whether a mark is whole by itself from the broken one on.
fn look_behind<A: Allocator + Copy, B: BufRead>(
    alloc: A,
    front: &Front<A>,
    reader: &mut B,
) -> Result<Extent, BatchFault>
    ensures { (before : Option (List ℕ)) → Breaks front.now before (B.remaining reader.old) → IfOk result (IsExtentKnown before) }
{
    if marks(front.section.lines(), front.section.line()) {
        return Ok(extent(front, true));
    }
    match find_mark(alloc, reader) {
        Ok(found) => Ok(extent(front, found)),
        Err(fault) => Err(fault),
    }
}

/// Looks for a mark that is whole by itself.
fn find_mark<A: Allocator + Copy, B: BufRead>(alloc: A, reader: &mut B) -> Result<bool, BatchFault>
    ensures { IfOk result (IsFound (B.remaining reader.old)) }
{
    let mut section = Section::new(alloc);
    'lines: for _ in 0..u64::MAX {
        match seek(&mut section, reader) {
            Ok(Next::GoesOn) => {}
            Ok(Next::Ended) => return Ok(false),
            Ok(Next::Broken) => return Ok(true),
            Err(fault) => return Err(fault),
        }
    }
    // No file has so many lines.
    Err(BatchFault::ReadFault)
}

/// Reads a line, or the rest of one; `Broken` where it is a mark that is whole by itself.
fn seek<A: Allocator + Copy, B: BufRead>(
    section: &mut Section<A>,
    reader: &mut B,
) -> Result<Next, BatchFault>
    requires { Unended (open_in section.old) }
    ensures { (before : Option (List ℕ)) → Seeks section.old before (B.remaining reader.old)
        → IfOk result (λ next. SeeksNext next section.new before (B.remaining reader.new)) }
{
    match section.read(reader) {
        Ok(Read::Part) => return Ok(Next::GoesOn),
        Ok(Read::Line) => return Ok(Next::GoesOn),
        Ok(Read::Mark) => {}
        Ok(Read::End) => return Ok(Next::Ended),
        Err(fault) => return Err(fault),
    }
    if marks(section.lines(), section.line()) {
        return Ok(Next::Broken);
    }
    section.clear();
    Ok(Next::GoesOn)
}
