//! Reads the summary of a journal, whichever site's it is.
ghost use Rattle.std.specs.Prelude.{◌≡◌, ◌⊎◌, None, Some, true, IfErr, IfOk, OnOk};
ghost use Rattle.std.specs.Io.KnownBytes.{IsAtEnd};
ghost use Rattle.shm_journal.specs.Found.{Sound, site_in};
ghost use Rattle.shm_journal.specs.HeaderOf.{header_of};
ghost use Rattle.shm_journal.specs.Lines.{read_header};
ghost use Rattle.shm_journal.specs.LinesOf.{left_of};
ghost use Rattle.shm_journal.specs.Recovers.{EntriesReadUpTo, ReadsAll};
ghost use Rattle.shm_journal.specs.StageOf.{Stands};
ghost use Rattle.shm_journal.specs.Stages.{InState, Stage, Telling, begun};
ghost use Rattle.shm_journal.specs.Summed.{LeadsBehind, NamesFirst, RestReadsUpTo, SummaryReadsUpTo, SumsRest, SumsUpKnown, SumsUpNode, in_limits, stage_named};
ghost use Rattle.shm_journal.specs.declared.journal_error.JournalFault.TheVariants as fault;
ghost use Rattle.shm_process.specs.NodeOf.{node_of};

use crate::journal_error::JournalFault;
use crate::journal_header::Header;
use crate::journal_line_parser::parse_header;
use crate::journal_reading::Reading;
use crate::journal_summary::Summary;
use crate::line_read_outcome::Taken;
use crate::line_reader::Lines;
use crate::replay_lines::replay_rest;
use shm_place::{PAGES, SiteId, Sites};
use shm_process::Node;
use std::alloc::{Allocator, Global};
use std::io::Read;

/// The site that a journal's first line names.
#[derive(Drop)]
struct Named<A: Allocator + Copy = Global> {
    header: Header,
    site: Reading<A>,
}

/// Reads the summary of this journal, whichever site's it is: it makes each of its steps again, as at its site's start, from the state that it
/// begins with, if there is one. At most one line of it is held at once, and what its state has told. After a fault the reader stands a little
/// behind the wrong line, or at the end where the state's own end is missing.
pub fn read_summary<A: Allocator + Copy, R: Read>(
    alloc: A,
    reader: &mut R,
) -> Result<Summary, JournalFault>
    ensures end { OnOk result (IsAtEnd (R.remaining reader.new)) }
    ensures all { OnOk result (ReadsAll (R.remaining reader.old) (R.remaining reader.new)) }
    ensures left { IfErr result (SummaryReadsUpTo (R.remaining reader.old) (R.remaining reader.new)) }
    ensures summed { SumsUpKnown (R.remaining reader.old) result }
{
    let mut lines = Lines::new(alloc);
    match read_named(alloc, &mut lines, reader) {
        Ok(named) => sum_rest(alloc, lines, named, reader),
        Err(fault) => Err(fault),
    }
}

/// The site that the first line names.
fn read_named<A: Allocator + Copy, R: Read>(
    alloc: A,
    lines: &mut Lines<A>,
    reader: &mut R,
) -> Result<Named<A>, JournalFault>
    requires { lines.old.whole ≡ 0 }
    ensures ok { IfOk result (λ n. NamesFirst (left_of lines.old (R.remaining reader.old)) (left_of lines.new (R.remaining reader.new))
        (header_of n.header) lines.new.whole) }
    ensures begins { IfOk result (λ n. Stands n.site (begun (header_of n.header))) }
    ensures left { IfErr result (SummaryReadsUpTo (left_of lines.old (R.remaining reader.old)) (R.remaining reader.new)) }
{
    match lines.take(reader) {
        Ok(Taken::Whole) => open_named(alloc, lines.line()),
        Ok(Taken::Torn) => Err(JournalFault::BadLine(1)),
        Ok(Taken::TooLong) => Err(JournalFault::BadLine(1)),
        Err(fault) => Err(fault),
    }
}

/// The site that the line names, at which nothing has happened.
fn open_named<A: Allocator + Copy>(alloc: A, line: &[u8]) -> Result<Named<A>, JournalFault>
    ensures read { IfOk result (λ n. read_header line.now ≡ Some (header_of n.header)) }
    ensures limits { IfOk result (λ n. in_limits (header_of n.header) ≡ true) }
    ensures begins { IfOk result (λ n. Stands n.site (begun (header_of n.header))) }
    ensures err { IfErr result (λ f. (f ≡ fault.OutOfMemory) ⊎ ((f ≡ fault.BadLine 1) × (stage_named line.now ≡ None))) }
{
    let Some(header) = parse_header(line) else {
        return Err(JournalFault::BadLine(1));
    };
    let Ok(sites) = Sites::new(header.sites) else {
        return Err(JournalFault::BadLine(1));
    };
    if header.me >= sites.count() || header.pages < 1 || header.pages > PAGES {
        return Err(JournalFault::BadLine(1));
    }
    let me = SiteId(header.me);
    match Node::new(alloc, sites, me, header.pages) {
        Ok(node) => Ok(Named {
            header,
            site: Reading::new(alloc, node, sites, me),
        }),
        Err(_) => Err(JournalFault::OutOfMemory),
    }
}

/// The summary of the journal of this site, which makes the steps again that the other lines record.
fn sum_rest<A: Allocator + Copy, R: Read>(
    alloc: A,
    lines: Lines<A>,
    named: Named<A>,
    reader: &mut R,
) -> Result<Summary, JournalFault>
    requires { Stands named.site (begun (header_of named.header)) }
    ensures ok { IfOk result (SumsRest (header_of named.header) (left_of lines (R.remaining reader.old)) (R.remaining reader.new) lines.whole) }
    ensures left { IfErr result (RestReadsUpTo (header_of named.header) (left_of lines (R.remaining reader.old)) (R.remaining reader.new)) }
{
    let mut lines = lines;
    let Named { header, site } = named;
    match node_behind(alloc, &mut lines, site, reader) {
        Ok(node) => sum_up(header, &node, &lines),
        Err(fault) => Err(fault),
    }
}

/// The site that all lines behind the first lead to. What is torn is the line that was taken last.
fn node_behind<A: Allocator + Copy, R: Read>(
    alloc: A,
    lines: &mut Lines<A>,
    site: Reading<A>,
    reader: &mut R,
) -> Result<Node<A>, JournalFault>
    ensures ok { (stage : Stage) → Stands site stage
        → IfOk result (λ node. LeadsBehind stage (left_of lines.old (R.remaining reader.old)) (R.remaining reader.new) lines.old lines.new (node_of node)) }
    ensures left { (stage : Stage) → Stands site stage
        → IfErr result (EntriesReadUpTo stage (left_of lines.old (R.remaining reader.old)) (R.remaining reader.new)) }
{
    let mut site = site;
    match replay_rest(alloc, lines, &mut site, reader) {
        Ok(()) => node_of_whole(site),
        Err(fault) => Err(fault),
    }
}

/// The site that all lines lead to.
fn node_of_whole<A: Allocator + Copy>(site: Reading<A>) -> Result<Node<A>, JournalFault>
    ensures node { (stage : Stage) → Stands site stage → IfOk result (λ node. site_in (Sound stage) ≡ Sound (node_of node)) }
    ensures fault { IfErr result (λ f. f ≡ fault.UnendedState) }
    ensures unended { (stage : Stage) → Stands site stage → IfErr result (λ f. (telling : Telling) × (stage ≡ InState telling)) }
{
    match site.into_node() {
        Some(node) => Ok(node),
        None => Err(JournalFault::UnendedState),
    }
}

/// The summary of the journal of this header that leads to the site, of which these lines were taken.
fn sum_up<A: Allocator + Copy>(
    header: Header,
    node: &Node<A>,
    lines: &Lines<A>,
) -> Result<Summary, JournalFault>
    ensures ok { IfOk result (SumsUpNode (header_of header) (node_of node.now) lines.now) }
    ensures fault { IfErr result (λ f. f ≡ fault.ReadFault) }
{
    let torn = lines.line().len() as u64;
    let Some(bytes) = lines.whole().checked_add(torn) else {
        return Err(JournalFault::ReadFault);
    };
    Ok(Summary {
        site: header.me,
        sites: header.sites,
        pages: header.pages,
        cluster: header.cluster,
        steps: node.steps(),
        clock: node.clock(),
        bytes,
        torn,
    })
}
