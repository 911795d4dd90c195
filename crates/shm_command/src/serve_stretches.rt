//! A site serves with a journal, in stretches: between two of them its journal is made shorter.
ghost use Rattle.std.specs.Prelude.{◌≡◌, ◌<◌, ◌⊎◌, IfErr, OnOk};
ghost use Rattle.shm_model.specs.Basics.{greatest};
ghost use Rattle.shm_journal.specs.HeaderOf.{header_of};
ghost use Rattle.shm_process.specs.DeskOf.{desk_of};
ghost use Rattle.shm_command.specs.Around.{streams};
ghost use Rattle.shm_command.specs.Served.{IsBetween, ServesFrom};
ghost use Rattle.shm_command.specs.Shortening.{GoesOnWith, IsRenewed};
ghost use Rattle.shm_command.specs.declared.shortening_error.ShorteningFault.TheVariants as cause;

use crate::error_text_and_status;
use crate::journal_backends::{JournalFile, NoJournal};
use crate::journal_place::{Place, Renewed};
use crate::shortening_error::ShorteningFault;
use crate::site_error::SiteFault;
use shm_journal::{Header, ProcessFault, ShortenFault, Stop, serve, shortened_journal};
use shm_process::Desk;
use std::fs::OpenFile;
use std::io::{Read, Write};

/// Serves the input and the output without a journal.
pub(crate) fn serve_unkept<I: Read, O: Write, E: Write>(
    desk: &mut Desk,
    reader: &mut I,
    out: &mut O,
    errors: &mut E,
) -> Result<(), SiteFault>
    ensures { ServesFrom (desk_of desk.old) result (streams (I.remaining reader.old) (O.contents out.old))
        (streams (I.remaining reader.new) (O.contents out.new)) }
{
    let stop = match serve(desk, reader, out, errors, &mut NoJournal) {
        Ok(stop) => stop,
        Err(fault) => return Err(SiteFault::Ended(fault)),
    };
    match stop {
        Stop::Ended => Ok(()),
        // No journal is never due.
        Stop::Due => Err(SiteFault::OutOfMemory),
    }
}

/// Serves the input and the output, and keeps what is recorded in a file, which lies in this place. Makes it shorter where it is due, once the
/// site is at rest. Where the file fails, what isn't durable is cut off again.
pub fn serve_kept<I: Read, O: Write, F: Write + OpenFile + Drop, N: Place<F>, E: Write>(
    desk: Desk,
    header: Header,
    reader: &mut I,
    out: &mut O,
    journal: JournalFile<F>,
    place: &mut N,
    errors: &mut E,
) -> Result<(), SiteFault>
    ensures { ServesFrom (desk_of desk) result (streams (I.remaining reader.old) (O.contents out.old))
        (streams (I.remaining reader.new) (O.contents out.new)) }
{
    let mut journal = journal;
    match serve_counted(desk, header, reader, out, &mut journal, place, errors) {
        Ok(()) => Ok(()),
        Err(SiteFault::Ended(ProcessFault::JournalFault)) => match journal.cut_back() {
            Ok(()) => Err(SiteFault::Ended(ProcessFault::JournalFault)),
            Err(_) => Err(SiteFault::Loose(journal.durable())),
        },
        Err(fault) => Err(fault),
    }
}

/// Serves the input and the output, and keeps what is recorded. Then it tells what the site counted.
fn serve_counted<I: Read, O: Write, F: Write + OpenFile + Drop, N: Place<F>, E: Write>(
    desk: Desk,
    header: Header,
    reader: &mut I,
    out: &mut O,
    journal: &mut JournalFile<F>,
    place: &mut N,
    errors: &mut E,
) -> Result<(), SiteFault>
    ensures { ServesFrom (desk_of desk) result (streams (I.remaining reader.old) (O.contents out.old))
        (streams (I.remaining reader.new) (O.contents out.new)) }
{
    let mut desk = desk;
    let ended = serve_stretches(&mut desk, header, reader, out, journal, place, errors);
    error_text_and_status::unopened(desk.counts().unopened, errors);
    error_text_and_status::health(desk.node().health(desk.counts()), errors);
    ended
}

/// Serves stretch after stretch.
fn serve_stretches<I: Read, O: Write, F: Write + OpenFile + Drop, N: Place<F>, E: Write>(
    desk: &mut Desk,
    header: Header,
    reader: &mut I,
    out: &mut O,
    journal: &mut JournalFile<F>,
    place: &mut N,
    errors: &mut E,
) -> Result<(), SiteFault>
    ensures { ServesFrom (desk_of desk.old) result (streams (I.remaining reader.old) (O.contents out.old))
        (streams (I.remaining reader.new) (O.contents out.new)) }
{
    'stretches: for _ in 0..u64::MAX {
        let stop = match serve(desk, reader, out, errors, journal) {
            Ok(stop) => stop,
            Err(fault) => return Err(SiteFault::Ended(fault)),
        };
        match stop {
            Stop::Ended => return Ok(()),
            Stop::Due => {}
        }
        match go_on(desk, header, journal, place, errors) {
            Ok(()) => {}
            Err(fault) => return Err(fault),
        }
    }
    // No run has so many.
    Err(SiteFault::OutOfMemory)
}

/// Makes the journal shorter and restarts the site, as at a start from the shorter one. Where it can't be made shorter, the site goes on as it
/// is. Tells which.
fn go_on<F: Write + OpenFile + Drop, N: Place<F>, E: Write>(
    desk: &mut Desk,
    header: Header,
    journal: &mut JournalFile<F>,
    place: &mut N,
    errors: &mut E,
) -> Result<(), SiteFault>
    requires { (desk_of desk.old).node.clock < greatest }
    ensures goes_on { OnOk result (GoesOnWith (header_of header) (desk_of desk.old) (desk_of desk.new) (N.journals place.old) (N.journals place.new)) }
    ensures between { IfErr result IsBetween }
{
    match renewed_journal(desk, header, place) {
        Ok(renewed) => {
            error_text_and_status::made_shorter(journal.durable(), renewed.bytes, errors);
            journal.go_on_in(renewed);
            match desk.restart() {
                Ok(()) => Ok(()),
                Err(_) => Err(SiteFault::OutOfMemory),
            }
        }
        Err(ShorteningFault::Unlisted) => Err(SiteFault::Unlisted),
        Err(fault) => {
            error_text_and_status::not_made_shorter(fault, errors);
            journal.put_off();
            Ok(())
        }
    }
}

/// A journal that begins with the state of the desk's site has taken the place of the whole one.
fn renewed_journal<F, N: Place<F>>(
    desk: &Desk,
    header: Header,
    place: &mut N,
) -> Result<Renewed<F>, ShorteningFault>
    ensures took { OnOk result (IsRenewed (header_of header) (desk_of desk.now).node (N.journals place.old) (N.journals place.new)) }
    ensures stays { IfErr result (λ why. (why ≡ cause.Unlisted) ⊎ (N.journals place.new ≡ N.journals place.old)) }
{
    let node = desk.node();
    if node.sites().count() != header.sites || node.me().0 != header.me {
        return Err(ShorteningFault::Untold);
    }
    match shortened_journal(desk.allocator(), header, node) {
        Ok(text) => place.renew(text.as_bytes()),
        Err(ShortenFault::OutOfMemory) => Err(ShorteningFault::OutOfMemory),
        Err(_) => Err(ShorteningFault::Untold),
    }
}
