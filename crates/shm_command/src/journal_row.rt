//! The files of a site's journal in a row: each but the first begins with the state that the one before it leads to.
ghost use Rattle.std.specs.Prelude.{◌≡◌, ◌≤◌, ◌++◌, ℕ, IfErr, IfOk, IfSome, OnErr, OnOk, drop, length};
ghost use Rattle.shm_command.specs.Audited.{IsUnread};
ghost use Rattle.shm_command.specs.Shortening.{GoesOnFrom};

use crate::audit_failure::Unaudited;
use crate::shorten_journal::shortened_text;
use crate::shortening_error::ShorteningFault;
use crate::whole_journal::open_whole;
use shm_audit::JournalFault;
use shm_journal::{Header, Lines, Taken, parse_header};
use std::alloc::{AllocError, Global};
use std::fs;
use std::io::Read;
use std::rt::Files;

/// The files of a row that were read.
#[derive(Drop)]
pub(crate) struct Row {
    /// Their lines as one journal: those of the first, and of each other those behind its state.
    pub(crate) lines: Vec<u8>,
    /// The lines of the last of them.
    pub(crate) last: Vec<u8>,
}

/// The lines of a journal that begins with a state, behind those of the files before it, as one journal. The files before it have its name, and
/// numbers from 1 on behind it. It is the journal of this number.
pub(crate) fn lines_in_row<R: AllocGlobal + Files>(
    rt: &R,
    at: usize,
    name: &str,
) -> Result<Vec<u8>, Unaudited>
    ensures { IfErr result IsUnread }
{
    let Ok(count) = count_kept(rt, name) else {
        return Err(Unaudited::OutOfMemory);
    };
    match first_in_row(rt, at, name, count) {
        Ok(Some(first)) => match begin_row(rt, at, name, first) {
            Ok(row) => read_row(rt, at, name, row, first, count),
            Err(fault) => Err(fault),
        },
        Ok(None) => Err(Unaudited::Unread {
            at,
            fault: JournalFault::BeginsWithState,
        }),
        Err(fault) => Err(fault),
    }
}

/// How many files there are with a number behind this name, from 1 on.
fn count_kept<R: AllocGlobal + Files>(rt: &R, name: &str) -> Result<u32, AllocError> {
    'numbers: for number in 1..u32::MAX {
        let kept = format!(in rt.alloc(); "{name}.{number}")?;
        if fs::metadata(rt, kept.as_str()).is_err() {
            return Ok(number - 1);
        }
    }
    Ok(u32::MAX - 1)
}

/// The number of the last file before the journal that begins without a state.
fn first_in_row<R: AllocGlobal + Files>(
    rt: &R,
    at: usize,
    name: &str,
    count: u32,
) -> Result<Option<u32>, Unaudited>
    ensures { IfErr result IsUnread }
{
    'files: for behind in 0..count {
        let number = count - behind;
        match lines_of_number(rt, at, name, number) {
            Ok(lines) => {
                if !begins_with_state(rt.alloc(), lines.as_slice()) {
                    return Ok(Some(number));
                }
            }
            Err(fault) => return Err(fault),
        }
    }
    Ok(None)
}

/// Checks that the lines are those of a journal that begins with a state.
fn begins_with_state(alloc: Global, text: &[u8]) -> bool {
    let mut reader = text;
    let mut lines = Lines::new(alloc);
    match lines.take(&mut reader) {
        Ok(Taken::Whole) => {}
        _ => return false,
    }
    match lines.take(&mut reader) {
        Ok(Taken::Whole) => lines.line().starts_with(b"state ".as_slice()),
        _ => false,
    }
}

/// The file of this number, alone.
fn begin_row<R: AllocGlobal + Files>(
    rt: &R,
    at: usize,
    name: &str,
    number: u32,
) -> Result<Row, Unaudited>
    ensures { IfErr result IsUnread }
{
    let last = match lines_of_number(rt, at, name, number) {
        Ok(lines) => lines,
        Err(fault) => return Err(fault),
    };
    match last.as_slice().to_vec(rt.alloc()) {
        Ok(lines) => Ok(Row { lines, last }),
        Err(_) => Err(Unaudited::OutOfMemory),
    }
}

/// The lines of the row, those of the files behind this number too, and of the journal.
fn read_row<R: AllocGlobal + Files>(
    rt: &R,
    at: usize,
    name: &str,
    row: Row,
    first: u32,
    count: u32,
) -> Result<Vec<u8>, Unaudited>
    ensures { IfErr result IsUnread }
{
    let mut row = row;
    'files: for number in first..count {
        match read_next(rt, at, name, number, &mut row) {
            Ok(()) => {}
            Err(fault) => return Err(fault),
        }
    }
    let last = match lines_in(rt, at, name) {
        Ok(lines) => lines,
        Err(fault) => return Err(fault),
    };
    match row.add(rt.alloc(), at, last) {
        Ok(()) => Ok(row.lines),
        Err(fault) => Err(fault),
    }
}

/// Adds the file behind the one of this number.
fn read_next<R: AllocGlobal + Files>(
    rt: &R,
    at: usize,
    name: &str,
    number: u32,
    row: &mut Row,
) -> Result<(), Unaudited>
    ensures { IfErr result IsUnread }
{
    match lines_of_number(rt, at, name, number.saturating_add(1)) {
        Ok(lines) => row.add(rt.alloc(), at, lines),
        Err(fault) => Err(fault),
    }
}

/// The lines of the file with this number behind the name.
fn lines_of_number<R: AllocGlobal + Files>(
    rt: &R,
    at: usize,
    name: &str,
    number: u32,
) -> Result<Vec<u8>, Unaudited>
    ensures { IfErr result IsUnread }
{
    match format!(in rt.alloc(); "{name}.{number}") {
        Ok(kept) => lines_in(rt, at, kept.as_str()),
        Err(_) => Err(Unaudited::OutOfMemory),
    }
}

/// The lines of the whole batches in the file of this name, without their marks.
fn lines_in<R: AllocGlobal + Files>(rt: &R, at: usize, name: &str) -> Result<Vec<u8>, Unaudited>
    ensures { IfErr result IsUnread }
{
    let whole = match open_whole(rt, name) {
        Ok(whole) => whole,
        Err(unwhole) => return Err(unwhole.of_audit(at)),
    };
    let mut reader = whole.lines;
    let mut lines = Vec::new(rt.alloc());
    match reader.read_to_end(&mut lines) {
        Ok(_) => Ok(lines),
        Err(_) => Err(Unaudited::Unread {
            at,
            fault: JournalFault::ReadFault,
        }),
    }
}

impl Row {
    /// Adds the lines of a further file, which has to begin with the state that the last one leads to.
    pub(crate) fn add(&mut self, alloc: Global, at: usize, next: Vec<u8>) -> Result<(), Unaudited>
        ensures joined { OnOk result ((n : ℕ) × GoesOnFrom self.old.last.items next.items n
            × (self.new.lines.items ≡ self.old.lines.items ++ drop n next.items)) }
        ensures last { OnOk result (self.new.last.items ≡ next.items) }
        ensures unread { IfErr result IsUnread }
        ensures same { OnErr result ((self.new.lines.items ≡ self.old.lines.items) × (self.new.last ≡ self.old.last)) }
    {
        let count = match count_of_state(alloc, self.last.as_slice(), next.as_slice()) {
            Ok(Some(count)) => count,
            Ok(None) => return Err(Unaudited::OtherState { at }),
            Err(_) => return Err(Unaudited::OutOfMemory),
        };
        match self.lines.extend_from_slice(&next[count..]) {
            Ok(()) => {
                self.last = next;
                Ok(())
            }
            Err(_) => Err(Unaudited::OutOfMemory),
        }
    }
}

/// How many bytes the header and the state have with which the lines begin, where the lines before lead to it.
fn count_of_state(alloc: Global, before: &[u8], next: &[u8]) -> Result<Option<usize>, AllocError>
    ensures led { IfOk result (λ found. IfSome found (GoesOnFrom before.now next.now)) }
    ensures within { IfOk result (λ found. IfSome found (λ n. n ≤ length next.now)) }
{
    let Some(header) = header_of_lines(alloc, before) else {
        return Ok(None);
    };
    let mut reader = before;
    let text = match shortened_text(alloc, header, &mut reader) {
        Ok(text) => text,
        Err(ShorteningFault::OutOfMemory) => return Err(AllocError),
        Err(_) => return Ok(None),
    };
    if next.starts_with(text.as_bytes()) {
        return Ok(Some(text.len()));
    }
    Ok(None)
}

/// The header in the first of these lines.
fn header_of_lines(alloc: Global, text: &[u8]) -> Option<Header> {
    let mut reader = text;
    let mut lines = Lines::new(alloc);
    match lines.take(&mut reader) {
        Ok(Taken::Whole) => parse_header(lines.line()),
        _ => None,
    }
}
