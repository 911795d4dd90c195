//! A site from its journal.
ghost use Rattle.std.specs.Prelude.{◌≡◌, ◌==◌, ◌+◌, ◌<◌, ◌≤◌, ℕ, false, option_map, true, IfErr, IfOk, OnOk};
ghost use Rattle.std.specs.Io.KnownBytes.{IsAtEnd};
ghost use Rattle.shm_journal.specs.Found.{Sound, reached, rest_found, site_in};
ghost use Rattle.shm_journal.specs.HeaderOf.{header_of};
ghost use Rattle.shm_journal.specs.Leading.{Leads};
ghost use Rattle.shm_journal.specs.LinesOf.{left_of};
ghost use Rattle.shm_journal.specs.ReadUpTo.{ReadsSite, ReadsWhole};
ghost use Rattle.shm_journal.specs.Recovers.{EntriesReadUpTo, ReadsAll, ReadsUpTo, Recovers, as_recovery, front_checked, header_checked};
ghost use Rattle.shm_journal.specs.StageOf.{Stands};
ghost use Rattle.shm_journal.specs.Stages.{InState, Stage, Telling, begun, next_stage};
ghost use Rattle.shm_journal.specs.declared.journal_error.JournalFault.{JournalFault as Fault};
ghost use Rattle.shm_journal.specs.declared.recovery_error.RecoveryFault.TheVariants as recovery;
ghost use Rattle.shm_process.specs.NodeOf.{node_of};
ghost use Rattle.shm_seal.specs.NameOf.{name_of};

use crate::journal_error::JournalFault;
use crate::journal_header::Header;
use crate::journal_line_parser::parse_header;
use crate::journal_reading::Reading;
use crate::line_read_outcome::Taken;
use crate::line_reader::Lines;
use crate::recovered_site::Recovered;
use crate::recovery_error::RecoveryFault;
use crate::replay_lines::replay_rest;
use shm_place::{PAGES, SiteId, Sites};
use shm_process::Node;
use shm_seal::ClusterName;
use std::alloc::Allocator;
use std::io::Read;

/// Recovers the site after the steps that its journal records; one of these sites, where segment 0 began with this number of pages, in the
/// cluster of this name, or in one without a name. A journal that begins with a state leads on from there. What stands behind the last line
/// feed is torn: it counts for nothing, unless it is too long for a line, or stands alone and is no front of the header. At most one line of
/// the journal is held at once, and what its state has told. After a fault the reader stands a little behind the wrong line, or at the end
/// where the state's own end is missing.
pub fn recover<A: Allocator + Copy, R: Read>(
    alloc: A,
    sites: Sites,
    me: SiteId,
    pages: u32,
    cluster: Option<ClusterName>,
    reader: &mut R,
) -> Result<Recovered<A>, RecoveryFault>
    requires below { me < sites }
    requires from { 1 ≤ pages }
    requires to { pages ≤ PAGES }
    ensures end { OnOk result (IsAtEnd (R.remaining reader.new)) }
    ensures all { OnOk result (ReadsAll (R.remaining reader.old) (R.remaining reader.new)) }
    ensures left { IfErr result (ReadsUpTo (record { sites = sites; me = me; pages = pages; cluster = option_map name_of cluster }) (R.remaining reader.old) (R.remaining reader.new)) }
    ensures found { Recovers (record { sites = sites; me = me; pages = pages; cluster = option_map name_of cluster }) (R.remaining reader.old) result }
{
    let Ok(node) = Node::new(alloc, sites, me, pages) else {
        return Err(RecoveryFault::OutOfMemory);
    };
    let header = Header {
        sites: sites.count(),
        me: me.0,
        pages,
        cluster,
    };
    let site = Reading::new(alloc, node, sites, me);
    read_journal(alloc, header, site, reader)
}

/// The site after the steps that the journal of this header records, where none of it is read yet.
fn read_journal<A: Allocator + Copy, R: Read>(
    alloc: A,
    header: Header,
    site: Reading<A>,
    reader: &mut R,
) -> Result<Recovered<A>, RecoveryFault>
    requires { Stands site (begun (header_of header)) }
    ensures whole { IfOk result (λ r. ReadsSite (reached (header_of header)) (R.remaining reader.old) (R.remaining reader.new) (node_of r.node) r.whole) }
    ensures new { IfOk result (λ r. r.is_new ≡ (r.whole == 0)) }
    ensures left { IfErr result (ReadsUpTo (header_of header) (R.remaining reader.old) (R.remaining reader.new)) }
{
    let mut lines = Lines::new(alloc);
    match read_header(alloc, header, &mut lines, reader) {
        Ok(true) => read_entries(alloc, lines, site, reader),
        Ok(false) => Ok(Recovered {
            node: site.node,
            whole: 0,
            is_new: true,
        }),
        Err(fault) => Err(fault),
    }
}

/// Checks that the whole first line, if there is one, is this header. If there is none, what is torn has to be a front of it. Answers
/// whether there is one.
fn read_header<A: Allocator + Copy, R: Read>(
    alloc: A,
    header: Header,
    lines: &mut Lines<A>,
    reader: &mut R,
) -> Result<bool, RecoveryFault>
    requires { lines.old.whole ≡ 0 }
    ensures whole { IfOk result (λ whole. whole ≡ true → Leads next_stage (reached (header_of header)) (left_of lines.old (R.remaining reader.old))
        (left_of lines.new (R.remaining reader.new)) 2 (begun (header_of header)) lines.new.whole) }
    ensures some { IfOk result (λ whole. whole ≡ true → 0 < lines.new.whole) }
    ensures none { IfOk result (λ whole. whole ≡ false → ReadsWhole (reached (header_of header)) (left_of lines.old (R.remaining reader.old))
        (R.remaining reader.new) (begun (header_of header)) 0) }
    ensures left { IfErr result (ReadsUpTo (header_of header) (left_of lines.old (R.remaining reader.old)) (R.remaining reader.new)) }
{
    let Ok(own) = format!(in alloc; "{header}") else {
        return Err(RecoveryFault::OutOfMemory);
    };
    match lines.take(reader) {
        Ok(Taken::Whole) => check_header(own.as_bytes(), lines.line()),
        Ok(Taken::Torn) => check_front(own.as_bytes(), lines.line()),
        Ok(Taken::TooLong) => Err(RecoveryFault::BadLine(1)),
        Err(fault) => Err(recovery_fault(fault)),
    }
}

/// Checks that a whole first line is the site's own header: `true`, or a fault.
fn check_header(own: &[u8], line: &[u8]) -> Result<bool, RecoveryFault>
    ensures { result ≡ header_checked own.now line.now }
{
    if line == own {
        return Ok(true);
    }
    match parse_header(line) {
        Some(_) => Err(RecoveryFault::Foreign),
        None => Err(RecoveryFault::BadLine(1)),
    }
}

/// Checks that the bytes of a file without a whole line are a front of the site's own header: `false`, or a fault.
fn check_front(own: &[u8], torn: &[u8]) -> Result<bool, RecoveryFault>
    ensures { result ≡ front_checked own.now torn.now }
{
    if !own.starts_with(torn) {
        return Err(RecoveryFault::BadLine(1));
    }
    Ok(false)
}

/// The site after the steps that the lines behind the header record.
fn read_entries<A: Allocator + Copy, R: Read>(
    alloc: A,
    lines: Lines<A>,
    site: Reading<A>,
    reader: &mut R,
) -> Result<Recovered<A>, RecoveryFault>
    ensures whole { (stage : Stage) → Stands site stage → IfOk result (λ r. (more : ℕ) × (r.whole ≡ lines.whole + more) × ReadsSite (rest_found stage)
        (left_of lines (R.remaining reader.old)) (R.remaining reader.new) (node_of r.node) more) }
    ensures old { IfOk result (λ r. r.is_new ≡ false) }
    ensures left { (stage : Stage) → Stands site stage → IfErr result (λ f. (why : Fault) × (f ≡ as_recovery why) × EntriesReadUpTo stage
        (left_of lines (R.remaining reader.old)) (R.remaining reader.new) why) }
{
    let mut lines = lines;
    let mut site = site;
    match replay_rest(alloc, &mut lines, &mut site, reader) {
        Ok(()) => recovered(site, lines.whole()),
        Err(fault) => Err(recovery_fault(fault)),
    }
}

/// The site that all lines lead to, which have so many bytes.
fn recovered<A: Allocator + Copy>(
    site: Reading<A>,
    whole: u64,
) -> Result<Recovered<A>, RecoveryFault>
    ensures node { (stage : Stage) → Stands site stage → IfOk result (λ r. site_in (Sound stage) ≡ Sound (node_of r.node)) }
    ensures whole { IfOk result (λ r. r.whole ≡ whole) }
    ensures old { IfOk result (λ r. r.is_new ≡ false) }
    ensures fault { IfErr result (λ f. f ≡ recovery.UnendedState) }
    ensures unended { (stage : Stage) → Stands site stage → IfErr result (λ f. (telling : Telling) × (stage ≡ InState telling)) }
{
    let Some(node) = site.into_node() else {
        return Err(RecoveryFault::UnendedState);
    };
    Ok(Recovered {
        node,
        whole,
        is_new: false,
    })
}

/// The fault, as one of a start.
fn recovery_fault(fault: JournalFault) -> RecoveryFault
    ensures { result ≡ as_recovery fault }
{
    match fault {
        JournalFault::OutOfMemory => RecoveryFault::OutOfMemory,
        JournalFault::ReadFault => RecoveryFault::ReadFault,
        JournalFault::BadLine(number) => RecoveryFault::BadLine(number),
        JournalFault::UnendedState => RecoveryFault::UnendedState,
        JournalFault::BeginsWithState => RecoveryFault::BadLine(2),
    }
}
