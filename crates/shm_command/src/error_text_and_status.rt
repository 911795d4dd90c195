ghost use Rattle.std.specs.Prelude.{◌≡◌, ◌≢◌, ◌⊎◌, Err};
ghost use Rattle.std.specs.IoError.{error_kind};
ghost use Rattle.std.specs.declared.io.ErrorKind.TheVariants as io_kind;
ghost use Rattle.clap.specs.Words.{kind_of};
ghost use Rattle.clap.specs.declared.error.kind.ErrorKind.TheVariants as kind;
ghost use Rattle.shm_command.specs.Audited.{unaudited_status};
ghost use Rattle.shm_command.specs.Sealed.{seal_status};
ghost use Rattle.shm_command.specs.Served.{site_status};
ghost use Rattle.shm_command.specs.Shortening.{shortening_status};
ghost use Rattle.shm_command.specs.Status.{caption_status, fault_status, run_status};

use crate::audit_failure::Unaudited;
use crate::closed_standard_streams::Stream;
use crate::line_of_step::WrongLine;
use crate::replayed_steps_notice::TakenAgain;
use crate::save_run_logs::Unlogged;
use crate::script_file_error::ScriptFileFault;
use crate::seal_error::SealFault;
use crate::shortening_error::ShorteningFault;
use crate::site_error::SiteFault;
use clap::error::ErrorKind;
use shm_audit::{JournalFault, JournalsFault, MissingStep};
use shm_debug::DebugFault;
use shm_draw::CaptionFault;
use shm_journal::{ProcessFault, RecoveryFault};
use shm_process::{Health, Unopened};
use shm_prompt::PromptFault;
use shm_report::ReportFault;
use shm_sites::AuditFault;
use std::io::{self, Write};

/// The exit status where a replay ended by this fault. Its one line goes to `errors`; a failure to write it is passed over.
pub fn fault<E: Write>(fault: DebugFault, errors: &mut E) -> u8
    ensures status { result ≡ fault_status fault }
{
    let _ = writeln!(errors, "shmdbg: {fault}");
    match fault {
        DebugFault::BadLine(_) | DebugFault::LineTooLong(_) | DebugFault::TooManyLines => 1,
        DebugFault::OutOfMemory | DebugFault::ReadFault | DebugFault::WriteFault => 3,
    }
}

/// The exit status where the file of this name gives no script. Its one line goes to `errors`.
pub fn script_file_fault<E: Write>(fault: ScriptFileFault, name: &str, errors: &mut E) -> u8
    ensures { result ≡ 3 }
{
    let _ = match fault {
        ScriptFileFault::OutOfMemory => writeln!(errors, "shmdbg: out of memory"),
        _ => writeln!(errors, "shmdbg: {name}: {fault}"),
    };
    3
}

/// The exit status where the notes in the file of this name have no captions. Its one line goes to `errors`.
pub fn caption_fault<E: Write>(fault: CaptionFault, name: &str, errors: &mut E) -> u8
    ensures { result ≡ caption_status fault }
{
    match fault {
        CaptionFault::OutOfMemory => {
            let _ = writeln!(errors, "shmdbg: out of memory");
            3
        }
        CaptionFault::BadNote(_) => {
            let _ = writeln!(errors, "shmdbg: {name}: {fault}");
            1
        }
    }
}

/// The exit status where a dialog ended by this fault. Its one line goes to `errors`.
pub fn prompt_fault<E: Write>(fault: PromptFault, errors: &mut E) -> u8
    ensures { result ≡ 3 }
{
    let _ = writeln!(errors, "shmdbg: {fault}");
    3
}

/// The exit status where a stream is closed that the program needs. Its one line goes to `errors`.
pub fn closed_stream<E: Write>(stream: Stream, errors: &mut E) -> u8
    ensures { result ≡ 3 }
{
    let _ = match stream {
        Stream::Input => writeln!(errors, "shmdbg: standard input is closed"),
        Stream::Output => writeln!(errors, "shmdbg: standard output is closed"),
    };
    3
}

/// The exit status where `/dev/null` can't be opened. Its one line goes to `errors`.
pub fn no_null<E: Write>(errors: &mut E) -> u8
    ensures { result ≡ 3 }
{
    let _ = writeln!(errors, "shmdbg: /dev/null: it can't be opened");
    3
}

/// The exit status where a site's process ended by this fault. Its one line goes to `errors`.
pub fn site_fault<E: Write>(fault: SiteFault, errors: &mut E) -> u8
    ensures { result ≡ site_status (Err fault) }
{
    let _ = writeln!(errors, "shmdbg: {fault}");
    match fault {
        SiteFault::Missing | SiteFault::NoFile | SiteFault::Existing | SiteFault::Blank => 1,
        SiteFault::Damaged(_) | SiteFault::Unmarked => 1,
        SiteFault::Unrecovered(RecoveryFault::OutOfMemory | RecoveryFault::ReadFault) => 3,
        SiteFault::Unrecovered(_) => 1,
        SiteFault::Ended(ProcessFault::TooOld { .. }) => 1,
        _ => 3,
    }
}

/// The exit status where the journal of this name wasn't made shorter, or that couldn't be told. Its one line goes to `errors`.
pub(crate) fn shortening_fault<E: Write>(fault: ShorteningFault, name: &str, errors: &mut E) -> u8
    ensures { result ≡ shortening_status fault }
{
    match fault {
        ShorteningFault::Unread(fault) => site_fault(fault, errors),
        _ => {
            let _ = writeln!(errors, "shmdbg: {name}: {fault}");
            3
        }
    }
}

/// Tells that a running site's journal was made shorter, and how many bytes it had and has. A failure to write it is passed over.
pub(crate) fn made_shorter<E: Write>(was: u64, is: u64, errors: &mut E) {
    let _ = writeln!(
        errors,
        "shmdbg: journal: made shorter: was {was} bytes, is {is}"
    );
}

/// Tells why a running site's journal wasn't made shorter. A failure to write it is passed over.
pub(crate) fn not_made_shorter<E: Write>(fault: ShorteningFault, errors: &mut E) {
    let _ = writeln!(errors, "shmdbg: not made shorter: {fault}");
}

/// The exit status where there is no seal as a site's words say. Its one line goes to `errors`.
pub fn seal_error<E: Write>(fault: SealFault, errors: &mut E) -> u8
    ensures { result ≡ seal_status fault }
{
    let _ = writeln!(errors, "shmdbg: {fault}");
    match fault {
        SealFault::BadName | SealFault::NoName | SealFault::NoKey => 1,
        SealFault::Unread(_) => 3,
    }
}

/// Tells what a site took again of its journal, and in how many milliseconds, if the clock could be read. A failure to write it is passed
/// over.
pub fn taken_again<E: Write>(again: TakenAgain, took: Option<u64>, errors: &mut E) {
    let _ = match took {
        Some(took) => writeln!(errors, "shmdbg: {again}, in {took} ms"),
        None => writeln!(errors, "shmdbg: {again}"),
    };
}

/// Tells how many lines a site didn't open, by their causes, if there was one. A failure to write it is passed over.
pub fn unopened<E: Write>(counts: Unopened, errors: &mut E) {
    let Unopened {
        other_cluster,
        no_digest,
        wrong_digest,
    } = counts;
    if other_cluster == 0 && no_digest == 0 && wrong_digest == 0 {
        return;
    }
    let _ = writeln!(
        errors,
        "shmdbg: lines passed over: {other_cluster} of another cluster, {no_digest} without a digest, {wrong_digest} with a wrong digest"
    );
}

/// Tells what a site counted. A failure to write it is passed over.
pub fn health<E: Write>(health: Health, errors: &mut E) {
    let _ = writeln!(errors, "shmdbg: {health}");
}

/// The exit status where journals of these names weren't accepted. Its one line goes to `errors`: with the journal and the line, where there
/// is one.
pub(crate) fn audit_fault<E: Write>(
    fault: Unaudited,
    line: Option<WrongLine>,
    journals: &[&str],
    errors: &mut E,
) -> u8
    ensures { result ≡ unaudited_status fault }
{
    let status = status_of(&fault);
    let _ = write_unaudited(fault, line, journals, errors);
    status
}

fn status_of(fault: &Unaudited) -> u8
    ensures { result ≡ unaudited_status fault.now }
{
    match fault {
        Unaudited::OutOfMemory | Unaudited::WriteFault | Unaudited::Unopened { .. } => 3,
        Unaudited::Unread { at: _, fault } => match fault {
            JournalFault::OutOfMemory | JournalFault::ReadFault => 3,
            JournalFault::BadLine(_) => 1,
            JournalFault::UnendedState | JournalFault::BeginsWithState => 1,
        },
        Unaudited::Damaged { .. } | Unaudited::Unmarked { .. } => 1,
        Unaudited::OtherState { .. } | Unaudited::OtherCluster { .. } => 1,
        Unaudited::Unaccepted(fault) => match fault {
            JournalsFault::NotOneSet => 1,
            JournalsFault::Audit(_) => 4,
            JournalsFault::OutOfMemory => 3,
        },
    }
}

fn write_unaudited<E: Write>(
    fault: Unaudited,
    line: Option<WrongLine>,
    journals: &[&str],
    errors: &mut E,
) -> io::Result<()> {
    match fault {
        Unaudited::OutOfMemory => writeln!(errors, "shmdbg: out of memory"),
        Unaudited::WriteFault => writeln!(errors, "shmdbg: write fault"),
        Unaudited::Unopened { at } => {
            let name = name_of(journals, at);
            writeln!(errors, "shmdbg: {name}: it can't be opened")
        }
        Unaudited::Unread { at, fault } => {
            let name = name_of(journals, at);
            writeln!(errors, "shmdbg: {name}: {fault}")
        }
        Unaudited::Damaged { at, bytes } => {
            let name = name_of(journals, at);
            writeln!(
                errors,
                "shmdbg: {name}: damaged behind its first {bytes} bytes: a whole batch stands behind a broken one"
            )
        }
        Unaudited::Unmarked { at } => {
            let name = name_of(journals, at);
            writeln!(
                errors,
                "shmdbg: {name}: its batches have no marks: an earlier version kept it"
            )
        }
        Unaudited::OtherState { at } => {
            let name = name_of(journals, at);
            writeln!(
                errors,
                "shmdbg: {name}: begins with another state than the file before it leads to"
            )
        }
        Unaudited::OtherCluster { at } => {
            let name = name_of(journals, at);
            writeln!(
                errors,
                "shmdbg: {name}: of another cluster than the first journal"
            )
        }
        Unaudited::Unaccepted(JournalsFault::Audit(cause)) => {
            write_cause(cause, line, journals, errors)
        }
        Unaudited::Unaccepted(fault) => writeln!(errors, "shmdbg: {fault}"),
    }
}

/// The cause, and the line of the journal where it stands.
fn write_cause<E: Write>(
    cause: AuditFault,
    line: Option<WrongLine>,
    journals: &[&str],
    errors: &mut E,
) -> io::Result<()> {
    let Some(WrongLine { site, number }) = line else {
        return writeln!(errors, "shmdbg: audit no: {cause}");
    };
    let name = name_of(journals, site.0 as usize);
    match number {
        Some(number) => writeln!(errors, "shmdbg: audit no: {cause}: {name}: line {number}"),
        None => writeln!(errors, "shmdbg: audit no: {cause}: {name}"),
    }
}

/// Tells which site's journal lacks a step that was found missing, if one was. A failure to write it is passed over.
pub(crate) fn missing<E: Write>(step: Option<MissingStep>, errors: &mut E) {
    let Some(step) = step else {
        return;
    };
    let _ = writeln!(errors, "shmdbg: {step}");
}

fn name_of<'a>(journals: &[&'a str], at: usize) -> &'a str {
    match journals.get(at) {
        Some(name) => name,
        None => "journal",
    }
}

/// The exit status where the words were not taken, which may be for want of memory.
pub fn refused_words<E: Write>(error: &clap::Error, errors: &mut E) -> u8
    ensures status { ((kind_of error.now ≡ kind.OutOfMemory) × (result ≡ 3))
        ⊎ ((kind_of error.now ≢ kind.OutOfMemory) × (result ≡ 2)) }
{
    if error.kind() == ErrorKind::OutOfMemory {
        return fault(DebugFault::OutOfMemory, errors);
    }
    let _ = write!(errors, "{error}");
    2
}

/// The exit status where a run ended by this fault. Its one line goes to `errors`.
pub fn run_fault<E: Write>(fault: ReportFault, errors: &mut E) -> u8
    ensures status { result ≡ run_status fault }
{
    let _ = writeln!(errors, "shmdbg: {fault}");
    match fault {
        ReportFault::BadLine(_) | ReportFault::LineTooLong(_) | ReportFault::TooManyLines => 1,
        ReportFault::GaveUp(_) | ReportFault::Logs | ReportFault::Audit(_) => 4,
        ReportFault::OutOfMemory
        | ReportFault::ReadFault
        | ReportFault::WriteFault
        | ReportFault::NoThread
        | ReportFault::ClockEnd => 3,
    }
}

/// The exit status where a run's logs couldn't be made ready. Its one line goes to `errors`.
pub fn logs_fault<E: Write>(unlogged: &Unlogged, errors: &mut E) -> u8
    ensures { result ≡ 3 }
{
    let _ = match unlogged {
        Unlogged::OutOfMemory => writeln!(errors, "shmdbg: out of memory"),
        Unlogged::Unopened(name) => writeln!(errors, "shmdbg: {name}: it can't be opened"),
    };
    3
}

/// The exit status where the process's words could not be read: memory was refused, or a word is no UTF-8.
pub fn unread_words<E: Write>(error: &io::Error, errors: &mut E) -> u8
    ensures status { ((error_kind error.now ≡ io_kind.OutOfMemory) × (result ≡ 3))
        ⊎ ((error_kind error.now ≢ io_kind.OutOfMemory) × (result ≡ 2)) }
{
    if error.kind() == io::ErrorKind::OutOfMemory {
        return fault(DebugFault::OutOfMemory, errors);
    }
    let _ = errors.write_all(b"error: a word is not UTF-8\n");
    2
}
