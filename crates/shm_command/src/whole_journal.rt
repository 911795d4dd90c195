//! The whole batches of a journal that lies in a file.
ghost use Rattle.std.specs.Prelude.{◌≡◌, ◌↔◌, ℕ, IsTrue, List, IfErr, IfOk, IfSome};
ghost use Rattle.shm_batches.specs.Extent.{IsExtent};
ghost use Rattle.shm_journal.specs.Found.{lines_of};
ghost use Rattle.shm_journal.specs.HeaderOf.{header_of};
ghost use Rattle.shm_command.specs.Audited.{IsUnread};
ghost use Rattle.shm_command.specs.First as first;
ghost use Rattle.shm_command.specs.First.{IsLeftOf, first_batch};
ghost use Rattle.shm_command.specs.Served.{IsUnbegun};
ghost use Rattle.shm_command.specs.Summarized.{IsUntold};

use crate::audit_failure::Unaudited;
use crate::site_error::SiteFault;
use shm_audit::JournalFault;
use shm_batches::{BatchFault, Chain, Extent, UnmarkedReader, measure, write_batch};
use shm_journal::{Header, Lines, RecoveryFault, Taken, parse_header};
use std::alloc::Global;
use std::fs::File;
use std::io::{BufReader, Read, Take};
use std::rt::Files;

/// More bytes than a first batch may have.
const FIRST_BATCH_BYTES: u64 = 4096;

/// A journal's whole batches.
#[derive(Drop)]
pub(crate) struct WholeJournal<F> {
    /// How far the file is whole.
    pub(crate) extent: Extent,
    /// The lines of the whole batches, without their marks.
    pub(crate) lines: UnmarkedReader<BufReader<Take<F>>>,
}

/// Why there is no whole journal in a file.
#[derive(Clone, Copy, Debug, PartialEq, Eq)]
pub(crate) enum Unwhole {
    /// The file couldn't be opened.
    Unopened,
    /// Memory was refused, or reading failed.
    Unread(BatchFault),
    /// A whole batch stands behind a broken one. The first so many bytes are whole.
    Damaged(u64),
    /// The file has lines of a journal, and no mark behind them.
    Unmarked,
}

/// Opens the journal of this name. Reads it whole, to find how far it is whole. Nothing is changed.
pub(crate) fn open_whole<R: AllocGlobal + Files>(
    rt: &R,
    name: &str,
) -> Result<WholeJournal<R::File>, Unwhole>
where
    R::File: Drop,
{
    let extent = match measure_file(rt, name) {
        Ok(extent) => extent,
        Err(fault) => return Err(fault),
    };
    if extent.is_damaged {
        return Err(Unwhole::Damaged(extent.bytes));
    }
    if extent.chain.number() == 0 {
        match look_for_lines(rt, name) {
            Ok(()) => {}
            Err(unwhole) => return Err(unwhole),
        }
    }
    let Ok(file) = File::open(rt, name) else {
        return Err(Unwhole::Unopened);
    };
    match BufReader::new(rt.alloc(), file.take(extent.bytes)) {
        Ok(reader) => Ok(WholeJournal {
            extent,
            lines: UnmarkedReader::new(rt.alloc(), reader),
        }),
        Err(_) => Err(Unwhole::Unread(BatchFault::OutOfMemory)),
    }
}

/// How far the file of this name is whole.
fn measure_file<R: AllocGlobal + Files>(rt: &R, name: &str) -> Result<Extent, Unwhole>
where
    R::File: Drop,
    ensures { IfOk result (λ extent. (file : List ℕ) × IsExtent file extent) }
{
    let Ok(file) = File::open(rt, name) else {
        return Err(Unwhole::Unopened);
    };
    let Ok(reader) = BufReader::new(rt.alloc(), file) else {
        return Err(Unwhole::Unread(BatchFault::OutOfMemory));
    };
    let mut reader = reader;
    match measure(rt.alloc(), &mut reader) {
        Ok(extent) => Ok(extent),
        Err(fault) => Err(Unwhole::Unread(fault)),
    }
}

/// The header in the first line of the file of this name.
pub(crate) fn header_in<R: AllocGlobal + Files>(rt: &R, name: &str) -> Option<Header> {
    let mut file = File::open(rt, name).ok()?;
    let mut lines = Lines::new(rt.alloc());
    match lines.take(&mut file) {
        Ok(Taken::Whole) => parse_header(lines.line()),
        _ => None,
    }
}

/// Looks whether the file of this name, which has no whole batch, has lines without a mark.
fn look_for_lines<R: AllocGlobal + Files>(rt: &R, name: &str) -> Result<(), Unwhole>
where
    R::File: Drop,
{
    let Ok(file) = File::open(rt, name) else {
        return Err(Unwhole::Unopened);
    };
    let mut file = file;
    match begins_unmarked(rt.alloc(), &mut file) {
        Ok(true) => Err(Unwhole::Unmarked),
        Ok(false) => Ok(()),
        Err(fault) => Err(Unwhole::Unread(as_batch_fault(fault))),
    }
}

/// Checks that what the reader gives begins with a journal's header and an entry: an earlier version wrote no marks.
fn begins_unmarked<I: Read>(alloc: Global, reader: &mut I) -> Result<bool, JournalFault>
    ensures { IfOk result (λ is. IfSome (I.remaining reader.old) (λ file. is ≡ first.begins_unmarked (lines_of file).whole)) }
{
    let mut lines = Lines::new(alloc);
    match lines.take(reader) {
        Ok(Taken::Whole) => {}
        Ok(Taken::Torn) => return Ok(false),
        Ok(Taken::TooLong) => return Ok(false),
        Err(fault) => return Err(fault),
    }
    if parse_header(lines.line()).is_none() {
        return Ok(false);
    }
    match lines.take(reader) {
        Ok(Taken::Whole) => Ok(lines.line().starts_with(b"step ".as_slice())),
        Ok(Taken::Torn) => Ok(false),
        Ok(Taken::TooLong) => Ok(false),
        Err(fault) => Err(fault),
    }
}

/// The fault of a line that couldn't be taken, as one of a batch.
fn as_batch_fault(fault: JournalFault) -> BatchFault {
    match fault {
        JournalFault::OutOfMemory => BatchFault::OutOfMemory,
        _ => BatchFault::ReadFault,
    }
}

/// Checks that the file of this name has no more than what a crash may leave of its first batch: so no other file is taken for a journal that
/// may be begun.
pub(crate) fn may_begin<R: AllocGlobal + Files>(
    rt: &R,
    name: &str,
    header: Header,
) -> Result<bool, Unwhole>
where
    R::File: Drop,
{
    let Ok(file) = File::open(rt, name) else {
        return Err(Unwhole::Unopened);
    };
    match may_be_begun(rt.alloc(), header, file) {
        Ok(may) => Ok(may),
        Err(fault) => Err(Unwhole::Unread(fault)),
    }
}

/// Checks that what the reader gives is no more than what a crash may leave of the first batch of this header's journal.
fn may_be_begun<I: Read + Drop>(
    alloc: Global,
    header: Header,
    reader: I,
) -> Result<bool, BatchFault>
    ensures { IfOk result (λ may. IfSome (I.remaining reader) (λ file. IsTrue may ↔ IsLeftOf (first_batch (header_of header)) file)) }
{
    let mut bytes = Vec::new(alloc);
    match reader.take(FIRST_BATCH_BYTES).read_to_end(&mut bytes) {
        Ok(_) => {}
        Err(_) => return Err(BatchFault::ReadFault),
    }
    match first_batch(alloc, header) {
        Ok(batch) => Ok(is_left_of(batch.as_slice(), bytes.as_slice())),
        Err(fault) => Err(fault),
    }
}

/// The first batch of this header's journal.
fn first_batch(alloc: Global, header: Header) -> Result<Vec<u8>, BatchFault>
    ensures { IfOk result (λ batch. batch.items ≡ first.first_batch (header_of header)) }
{
    let Ok(text) = format!(in alloc; "{header}\n") else {
        return Err(BatchFault::OutOfMemory);
    };
    let mut batch = Vec::new(alloc);
    match write_batch(alloc, &mut batch, &mut Chain::new(), text.as_bytes()) {
        Ok(_) => Ok(batch),
        Err(fault) => Err(fault),
    }
}

/// Checks that each byte is that of the batch at its place, or zero, and that there are fewer than any file has that is worth keeping.
fn is_left_of(batch: &[u8], bytes: &[u8]) -> bool
    ensures { IsTrue result ↔ IsLeftOf batch.now bytes.now }
{
    if bytes.len() as u64 >= FIRST_BATCH_BYTES {
        return false;
    }
    'bytes: for (at, byte) in bytes.iter().enumerate() {
        if !may_stand(batch, at, *byte) {
            return false;
        }
    }
    true
}

/// Checks that this byte is that of the batch at this place, or zero.
fn may_stand(batch: &[u8], at: usize, byte: u8) -> bool
    ensures { result ≡ first.may_stand batch.now at byte }
{
    match batch.get(at) {
        Some(own) => byte == 0 || byte == *own,
        None => byte == 0,
    }
}

impl Unwhole {
    /// The fault, as one of a site's start.
    pub(crate) fn of_site(self) -> SiteFault
        ensures { IsUnbegun result }
    {
        match self {
            Unwhole::Unopened => SiteFault::Unopened,
            Unwhole::Unread(BatchFault::OutOfMemory) => SiteFault::OutOfMemory,
            Unwhole::Unread(_) => SiteFault::Unrecovered(RecoveryFault::ReadFault),
            Unwhole::Damaged(bytes) => SiteFault::Damaged(bytes),
            Unwhole::Unmarked => SiteFault::Unmarked,
        }
    }

    /// The fault, as one of an audit, at the journal of this number.
    pub(crate) fn of_audit(self, at: usize) -> Unaudited
        ensures unread { IsUnread result }
        ensures untold { IsUntold result }
    {
        match self {
            Unwhole::Unopened => Unaudited::Unopened { at },
            Unwhole::Unread(BatchFault::OutOfMemory) => Unaudited::OutOfMemory,
            Unwhole::Unread(_) => Unaudited::Unread {
                at,
                fault: JournalFault::ReadFault,
            },
            Unwhole::Damaged(bytes) => Unaudited::Damaged { at, bytes },
            Unwhole::Unmarked => Unaudited::Unmarked { at },
        }
    }
}
