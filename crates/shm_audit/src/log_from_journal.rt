//! A journal is read: each line is taken as it comes.
ghost use Rattle.std.specs.Prelude.{◌≡◌, false, IfErr, IfOk, IfSome, OnOk};
ghost use Rattle.std.specs.Io.KnownBytes.{IsAtEnd};
ghost use Rattle.shm_logs.specs.Boxes.SiteBox.{box_of};
ghost use Rattle.shm_audit.specs.Found.{Cut, EntriesReadUpTo, LeadsToLog, Log, ReadsUpTo, TellsLog, found, next_reading, reached, rest_found};
ghost use Rattle.shm_audit.specs.ReadingOf.{reading_of};
ghost use Rattle.shm_journal.specs.Leading.{Leads};
ghost use Rattle.shm_journal.specs.LinesOf.{left_of};
ghost use Rattle.shm_journal.specs.declared.journal_error.JournalFault.TheVariants as fault;
ghost use Rattle.shm_journal.specs.Recovers.{ReadsAll};

use crate::box_replay::Audited;
use crate::site_from_header::open_site;
use shm_journal::{JournalFault, Lines, Taken, replay_rest};
use shm_logs::SiteLog;
use std::alloc::Allocator;
use std::io::Read;

/// Reads a journal as its site's log: the site's box takes each step that is recorded. A last line without its line feed counts for
/// nothing. A line that is longer than a journal's may be is wrong, even the last one, and it is told as soon as it has a byte too many. So
/// `shm_journal::MAX_LINE_BYTES` bounds the memory for a line; the log takes some too. A journal that begins with a state is read to its end,
/// and has no whole log. After another fault the reader stands a little behind the
/// wrong line, or behind its byte too many.
pub fn read_log<A: Allocator + Copy, R: Read>(
    alloc: A,
    reader: &mut R,
) -> Result<SiteLog<A>, JournalFault>
    ensures end { OnOk result (IsAtEnd (R.remaining reader.new)) }
    ensures all { OnOk result (ReadsAll (R.remaining reader.old) (R.remaining reader.new)) }
    ensures left { IfErr result (ReadsUpTo (R.remaining reader.old) (R.remaining reader.new)) }
    ensures found { IfSome (R.remaining reader.old) (λ file. TellsLog (found file) result) }
{
    let mut lines = Lines::new(alloc);
    match read_first(alloc, &mut lines, reader) {
        Ok(site) => read_entries(alloc, lines, site, reader),
        Err(fault) => Err(fault),
    }
}

/// The site that the first line names.
fn read_first<A: Allocator + Copy, R: Read>(
    alloc: A,
    lines: &mut Lines<A>,
    reader: &mut R,
) -> Result<Audited<A>, JournalFault>
    requires { lines.old.whole ≡ 0 }
    ensures ok { IfOk result (λ site. Leads next_reading reached (left_of lines.old (R.remaining reader.old)) (left_of lines.new (R.remaining reader.new)) 2
        (Log (box_of site.site_box)) lines.new.whole) }
    ensures fresh { IfOk result (λ site. site.begins_with_state ≡ false) }
    ensures left { IfErr result (ReadsUpTo (left_of lines.old (R.remaining reader.old)) (R.remaining reader.new)) }
{
    match lines.take(reader) {
        Ok(Taken::Whole) => open_site(alloc, lines.line()),
        Ok(Taken::Torn) => Err(JournalFault::BadLine(1)),
        Ok(Taken::TooLong) => Err(JournalFault::BadLine(1)),
        Err(fault) => Err(fault),
    }
}

/// The log of the site, which makes the steps again that the other lines record.
fn read_entries<A: Allocator + Copy, R: Read>(
    alloc: A,
    lines: Lines<A>,
    site: Audited<A>,
    reader: &mut R,
) -> Result<SiteLog<A>, JournalFault>
    requires { site.begins_with_state ≡ false }
    ensures ok { IfOk result (λ log. LeadsToLog (rest_found (box_of site.site_box)) (left_of lines (R.remaining reader.old)) (R.remaining reader.new) log) }
    ensures left { IfErr result (EntriesReadUpTo (box_of site.site_box) (left_of lines (R.remaining reader.old)) (R.remaining reader.new)) }
{
    let mut lines = lines;
    let mut site = site;
    match replay_rest(alloc, &mut lines, &mut site, reader) {
        Ok(()) => whole_log(site),
        Err(fault) => Err(fault),
    }
}

/// The log of a site whose journal was read, unless that begins with a state.
fn whole_log<A: Allocator + Copy>(site: Audited<A>) -> Result<SiteLog<A>, JournalFault>
    ensures whole { IfOk result (λ log. reading_of site ≡ Log (box_of site.site_box)) }
    ensures log { IfOk result (λ log. log ≡ site.site_box.log) }
    ensures cut { IfErr result (λ f. reading_of site ≡ Cut) }
    ensures fault { IfErr result (λ f. f ≡ fault.BeginsWithState) }
{
    let Audited {
        site_box,
        begins_with_state,
    } = site;
    if begins_with_state {
        return Err(JournalFault::BeginsWithState);
    }
    Ok(site_box.into_log())
}
