//! The line of a journal in which a step stands: an entry may have many steps.
use crate::audit_failure::Unaudited;
use crate::whole_journal::open_whole;
use shm_audit::JournalsFault;
use shm_journal::{Entry, Lines, Taken, parse_entry};
use shm_place::SiteId;
use shm_process::Steps;
use shm_sites::AuditFault;
use std::alloc::Global;
use std::io::Read;
use std::rt::Files;

/// A step of a site, counted from 0, and the line of the site's journal that has its entry.
#[derive(Clone, Copy)]
pub(crate) struct WrongLine {
    pub(crate) site: SiteId,
    /// From 1, marks not counted. `None`: the file couldn't be read again.
    pub(crate) number: Option<u64>,
}

/// Where the cause of a failed audit stands, if it is a step's.
pub(crate) fn wrong_line<R: AllocGlobal + Files>(
    rt: &R,
    journals: &[&str],
    fault: &Unaudited,
) -> Option<WrongLine> {
    let (site, index) = step_of(fault)?;
    let number = match journals.get(site.0 as usize) {
        Some(name) => line_in_file(rt, name, index),
        None => None,
    };
    Some(WrongLine { site, number })
}

/// The site and the index of the step with which a cause was found.
fn step_of(fault: &Unaudited) -> Option<(SiteId, usize)> {
    let Unaudited::Unaccepted(JournalsFault::Audit(cause)) = fault else {
        return None;
    };
    match *cause {
        AuditFault::Unsent { site, index }
        | AuditFault::StampOrder { site, index }
        | AuditFault::Forged { site, index }
        | AuditFault::Untold { site, index } => Some((site, index)),
        AuditFault::OutOfMemory => None,
    }
}

fn line_in_file<R: AllocGlobal + Files>(rt: &R, name: &str, index: usize) -> Option<u64> {
    let whole = open_whole(rt, name).ok()?;
    let mut reader = whole.lines;
    line_of_step(rt.alloc(), &mut reader, index)
}

/// The number of the line whose entry has this step. The first line is the header. `None` where a state stands before the entries: steps in
/// files before it come first.
fn line_of_step<R: Read>(alloc: Global, reader: &mut R, index: usize) -> Option<u64> {
    let mut lines = Lines::new(alloc);
    let mut before = 0;
    'lines: for number in 1..u64::MAX {
        let Ok(Taken::Whole) = lines.take(reader) else {
            return None;
        };
        if lines.line().starts_with(b"state ".as_slice()) {
            return None;
        }
        before = count_on(before, steps_in(alloc, lines.line()));
        if before > index {
            return Some(number);
        }
    }
    None
}

/// So many and so many more.
fn count_on(count: usize, more: usize) -> usize {
    count.saturating_add(more)
}

/// How many steps the line records; of a header there is none.
fn steps_in(alloc: Global, line: &[u8]) -> usize {
    let Ok(Some(Entry { clock: _, cause })) = parse_entry(alloc, line) else {
        return 0;
    };
    let mut steps = Steps::of(alloc, cause);
    count_steps(&mut steps)
}

fn count_steps(steps: &mut Steps) -> usize {
    let mut count = 0;
    'steps: for _ in 0..u64::MAX {
        if steps.next().is_none() {
            return count;
        }
        count = count_on(count, 1);
    }
    count
}
