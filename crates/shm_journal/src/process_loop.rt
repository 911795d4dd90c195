//! A process: it takes what comes, makes what it recorded durable, and only then writes its answers.
ghost use Rattle.std.specs.Prelude.{◌≡◌, ◌≢◌, ◌||◌, [], ◌∷◌, ℕ, IsTrue, List, None, Option, Some, is_some, take, IfErr, IfOk, OnErr, OnOk};
ghost use Rattle.std.specs.Io.KnownBytes.{Appends};
ghost use Rattle.shm_journal.specs.Acts.{Append, Did, GoesOn, Served, Stood, Tell, around, keeping, publishing, telling};
ghost use Rattle.shm_journal.specs.Publishing.{FailsToPublish, FailsToTake};
ghost use Rattle.shm_journal.specs.Stretches.{EndsAt, IsDue, Rests};
ghost use Rattle.shm_journal.specs.Warning.{Warns, WarnsOnce, warned_if};
ghost use Rattle.shm_journal.specs.declared.service_stop.Stop.TheVariants.{Due};
ghost use Rattle.shm_process.specs.Desk.{cleared, disagreement_in, on_bytes};
ghost use Rattle.shm_process.specs.DeskOf.{desk_of};

use crate::journal_trait::{Failed, Journal};
use crate::process_error::ProcessFault;
use crate::service_stop::Stop;
use shm_process::{Desk, Disagreement};
use shm_text::write_whole;
use std::alloc::Allocator;
use std::io::{Read, Write};

/// How many bytes are read at once.
const CHUNK: usize = 8192;

/// Takes lines until the input ends, or the journal is due to be made shorter and the site is at rest. First, and after each read, it appends what the desk has recorded to the journal, makes that durable,
/// and then writes the desk's output. It doesn't take a last line without its line feed. The desk then has its counts of lines.
///
/// A line may tell of a step of the own site that it doesn't have. Then it ends: of the bytes that it read last it appends and writes nothing.
///
/// Where another site was begun with other numbers it warns once, on `errors`. A failure to write that is passed over.
pub fn serve<A: Allocator + Copy, R: Read, W: Write, E: Write, J: Journal>(
    desk: &mut Desk<A>,
    reader: &mut R,
    writer: &mut W,
    errors: &mut E,
    journal: &mut J,
) -> Result<Stop, ProcessFault>
    ensures end { IfOk result (λ stop. EndsAt stop (R.remaining reader.new)) }
    ensures rests { IfOk result (λ stop. Rests stop (desk_of desk.new)) }
    ensures due { IfOk result (λ stop. IsDue stop (J.due journal.new)) }
    ensures served { Served (desk_of desk.old) (around (R.remaining reader.old) (W.contents writer.old) (J.acts journal.old))
        (around (R.remaining reader.new) (W.contents writer.new) (J.acts journal.new)) result }
    ensures stands { OnOk result (Stood (desk_of desk.old) (desk_of desk.new)
        (around (R.remaining reader.old) (W.contents writer.old) (J.acts journal.old))
        (around (R.remaining reader.new) (W.contents writer.new) (J.acts journal.new))) }
    ensures sound { (desk_of desk.old).later ≡ None → OnOk result ((desk_of desk.new).later ≡ None) }
    ensures warned { WarnsOnce (E.contents errors.old) (E.contents errors.new) (desk_of desk.new) result }
{
    let mut warned = warn(desk, false, errors);
    match publish(desk, writer, journal) {
        Ok(()) => {}
        Err(fault) => return Err(fault),
    }
    let mut chunk = [0u8; CHUNK];
    'reads: for _ in 0..u64::MAX {
        let Ok(count) = journal.read(reader, &mut chunk) else {
            return Err(ProcessFault::ReadFault);
        };
        if count == 0 {
            return Ok(Stop::Ended);
        }
        match take_read(desk, &chunk[..count]) {
            Ok(()) => {}
            Err(fault) => return Err(fault),
        }
        warned = warn(desk, warned, errors);
        match publish(desk, writer, journal) {
            Ok(()) => {}
            Err(fault) => return Err(fault),
        }
        if may_shorten(desk, journal) {
            return Ok(Stop::Due);
        }
    }
    // No run reads so often.
    Err(ProcessFault::ReadFault)
}

/// Checks that the journal is due to be made shorter, that the site is at rest, and that there is a clock for its restart.
fn may_shorten<A: Allocator + Copy, J: Journal>(desk: &Desk<A>, journal: &J) -> bool
    ensures rests { IsTrue result → Rests Due (desk_of desk.now) }
    ensures due { IsTrue result → IsDue Due (J.due journal.now) }
{
    journal.is_due() && desk.is_at_rest() && desk.node().clock() < u64::MAX
}

/// Takes these bytes, unless they tell of a step of the own site that it doesn't have.
fn take_read<A: Allocator + Copy>(desk: &mut Desk<A>, bytes: &[u8]) -> Result<(), ProcessFault>
    ensures taken { OnOk result (desk_of desk.new ≡ on_bytes (desk_of desk.old) bytes.now) }
    ensures sound { OnOk result ((desk_of desk.new).later ≡ None) }
    ensures fault { IfErr result (FailsToTake (desk_of desk.old) bytes.now) }
{
    match desk.take(bytes) {
        Ok(()) => {}
        Err(_) => return Err(ProcessFault::OutOfMemory),
    }
    match desk.later() {
        Some(clock) => Err(ProcessFault::TooOld { clock }),
        None => Ok(()),
    }
}

/// Warns of another opening, if the desk has noted one, unless that was done. Whether it was done then.
fn warn<A: Allocator + Copy, E: Write>(desk: &Desk<A>, warned: bool, errors: &mut E) -> bool
    ensures warns { Warns (E.contents errors.old) (E.contents errors.new) (warned_if warned (disagreement_in (desk_of desk.now))) }
    ensures done { result ≡ (warned || is_some (disagreement_in (desk_of desk.now))) }
{
    if warned {
        return true;
    }
    let Some(disagreement) = desk.disagreement() else {
        return false;
    };
    write_warning(desk.allocator(), disagreement, errors);
    true
}

/// Writes the line that warns of another opening.
fn write_warning<A: Allocator + Copy, E: Write>(
    alloc: A,
    disagreement: Disagreement,
    errors: &mut E,
)
    ensures { Warns (E.contents errors.old) (E.contents errors.new) (Some disagreement) }
{
    let Ok(line) = format!(in alloc; "shmdbg: {disagreement}\n") else {
        return;
    };
    let _ = write_whole(errors, line.as_bytes());
}

/// Makes the desk's entries durable, and then writes its output.
fn publish<A: Allocator + Copy, W: Write, J: Journal>(
    desk: &mut Desk<A>,
    writer: &mut W,
    journal: &mut J,
) -> Result<(), ProcessFault>
    ensures done { (r : Option (List ℕ)) → OnOk result (Did (around r (W.contents writer.old) (J.acts journal.old))
        (around r (W.contents writer.new) (J.acts journal.new)) (publishing (desk_of desk.old))) }
    ensures cleared { OnOk result (desk_of desk.new ≡ cleared (desk_of desk.old)) }
    ensures fault { (r : Option (List ℕ)) → IfErr result (FailsToPublish (desk_of desk.old) (around r (W.contents writer.old) (J.acts journal.old))
        (around r (W.contents writer.new) (J.acts journal.new))) }
{
    match keep(desk.entries(), journal) {
        Ok(()) => {}
        Err(_) => return Err(ProcessFault::JournalFault),
    }
    match tell(desk.output().as_bytes(), writer, journal) {
        Ok(()) => {}
        Err(_) => return Err(ProcessFault::WriteFault),
    }
    desk.clear();
    Ok(())
}

/// Appends the entries, and makes them durable; nothing is done where there are none.
fn keep<J: Journal>(entries: &[u8], journal: &mut J) -> Result<(), Failed>
    ensures done { OnOk result (GoesOn (J.acts journal.old) (J.acts journal.new) (keeping entries.now)) }
    ensures front { OnErr result ((n : ℕ) × GoesOn (J.acts journal.old) (J.acts journal.new) (Append (take n entries.now) ∷ [])) }
    ensures some { OnErr result (entries.now ≢ []) }
{
    if entries.is_empty() {
        return Ok(());
    }
    match journal.append(entries) {
        Ok(()) => {}
        Err(failed) => return Err(failed),
    }
    match journal.sync() {
        Ok(()) => Ok(()),
        Err(failed) => Err(failed),
    }
}

/// Tells the text, if there is one.
fn tell<W: Write, J: Journal>(text: &[u8], writer: &mut W, journal: &mut J) -> Result<(), Failed>
    ensures told { OnOk result (Appends (W.contents writer.old) (W.contents writer.new) text.now) }
    ensures done { OnOk result (GoesOn (J.acts journal.old) (J.acts journal.new) (telling text.now)) }
    ensures front { OnErr result ((n : ℕ) × Appends (W.contents writer.old) (W.contents writer.new) (take n text.now)
        × GoesOn (J.acts journal.old) (J.acts journal.new) (Tell (take n text.now) ∷ [])) }
    ensures some { OnErr result (text.now ≢ []) }
{
    if text.is_empty() {
        return Ok(());
    }
    journal.tell(writer, text)
}
