//! How each line of a workload is read.
ghost use Rattle.std.specs.Prelude.{◌≡◌, ◌≤◌};
ghost use Rattle.shm_lines.specs.Workload as said;

use crate::Words;
use crate::workload_access::WorkloadAccess;
use crate::workload_error::WorkloadFault;
use shm_model::Asked;
use shm_place::{PAGE_BYTES, PAGES, SiteId, Sites};

/// The most bytes that a line has, without its line feed.
const MAX_LINE_BYTES: usize = 200;

/// The most lines that there are.
const MAX_LINES: u64 = 10_000;

/// The first line: how many pages there are.
pub(crate) fn first_line(line: &[u8]) -> Result<u32, WorkloadFault>
    ensures { result ≡ said.read_line said.preset_of 1 line.now }
{
    if let Some(fault) = broken_limit(1, line) {
        return Err(fault);
    }
    match preset_of(line) {
        Some(size) => Ok(size),
        None => Err(WorkloadFault::BadLine(1)),
    }
}

/// A further line: what a caller does.
pub(crate) fn access_line(
    sites: Sites,
    size: u32,
    number: u64,
    line: &[u8],
) -> Result<WorkloadAccess, WorkloadFault>
    requires { size ≤ PAGES }
    ensures { result ≡ said.read_line (said.access_of sites size) number line.now }
{
    if let Some(fault) = broken_limit(number, line) {
        return Err(fault);
    }
    match access_of(sites, size, line) {
        Some(access) => Ok(access),
        None => Err(WorkloadFault::BadLine(number)),
    }
}

/// The fault of bytes without a line feed.
pub(crate) fn open_line(number: u64, line: &[u8]) -> WorkloadFault
    ensures { result ≡ said.open_line number line.now }
{
    match broken_limit(number, line) {
        Some(fault) => fault,
        None => WorkloadFault::BadLine(number),
    }
}

fn broken_limit(number: u64, line: &[u8]) -> Option<WorkloadFault>
    ensures { result ≡ said.broken_limit number line.now }
{
    if number > MAX_LINES {
        return Some(WorkloadFault::TooManyLines);
    }
    if line.len() > MAX_LINE_BYTES {
        return Some(WorkloadFault::LineTooLong(number));
    }
    None
}

fn preset_of(line: &[u8]) -> Option<u32>
    ensures { result ≡ said.preset_of line.now }
{
    let (name, words) = Words::of(line).word()?;
    let (size, words) = words.number()?;
    if name != b"preset".as_slice() || size < 1 || size > PAGES {
        return None;
    }
    if !words.is_empty() {
        return None;
    }
    Some(size)
}

fn access_of(sites: Sites, size: u32, line: &[u8]) -> Option<WorkloadAccess>
    requires { size ≤ PAGES }
    ensures { result ≡ said.access_of sites size line.now }
{
    let (verb, words) = Words::of(line).word()?;
    if verb == b"load".as_slice() {
        return load(sites, size, words);
    }
    if verb == b"store".as_slice() {
        return store(sites, size, words);
    }
    None
}

fn load(sites: Sites, size: u32, words: Words<'_>) -> Option<WorkloadAccess>
    requires { size ≤ PAGES }
    ensures { result ≡ said.load_of sites size words.entry }
{
    let (site, words) = words.number()?;
    let (offset, words) = words.number()?;
    if !words.is_empty() || !is_inside(sites, size, site, offset) {
        return None;
    }
    Some(WorkloadAccess {
        site: SiteId(site),
        asked: Asked::Load { at: 0, offset },
    })
}

fn store(sites: Sites, size: u32, words: Words<'_>) -> Option<WorkloadAccess>
    requires { size ≤ PAGES }
    ensures { result ≡ said.store_of sites size words.entry }
{
    let (site, words) = words.number()?;
    let (offset, words) = words.number()?;
    let (byte, words) = words.byte()?;
    if !words.is_empty() || !is_inside(sites, size, site, offset) {
        return None;
    }
    Some(WorkloadAccess {
        site: SiteId(site),
        asked: Asked::Store {
            at: 0,
            offset,
            byte,
        },
    })
}

/// Checks that there is such a site, and that the offset lies inside the pages.
fn is_inside(sites: Sites, size: u32, site: u32, offset: u32) -> bool
    requires { size ≤ PAGES }
    ensures { result ≡ said.is_inside sites size site offset }
{
    site < sites.count() && offset < size * PAGE_BYTES as u32
}
