//! Reads a line of a workload.
ghost use Rattle.std.specs.Prelude.{◌≡◌, ◌≤◌};
ghost use Rattle.shm_lines.specs.Workload as said;

use crate::{Words, WorkloadAccess};
use shm_model::Asked;
use shm_place::{PAGE_BYTES, PAGES, SiteId, Sites};

/// How many pages the first line gives segment 0.
pub fn preset_of(line: &[u8]) -> Option<u32>
    ensures { result ≡ said.preset_of line.now }
{
    let (name, words) = Words::of(line).word()?;
    let (size, words) = words.number()?;
    if name != b"preset".as_slice() || size < 1 || size > PAGES {
        return None;
    }
    if !words.is_empty() {
        return None;
    }
    Some(size)
}

/// The access of a further line.
pub fn access_of(sites: Sites, pages: u32, line: &[u8]) -> Option<WorkloadAccess>
    requires { pages ≤ PAGES }
    ensures { result ≡ said.access_of sites pages line.now }
{
    let (verb, words) = Words::of(line).word()?;
    if verb == b"load".as_slice() {
        return load(sites, pages, words);
    }
    if verb == b"store".as_slice() {
        return store(sites, pages, words);
    }
    None
}

fn load(sites: Sites, pages: u32, words: Words<'_>) -> Option<WorkloadAccess>
    requires { pages ≤ PAGES }
    ensures { result ≡ said.load_of sites pages words.entry }
{
    let (site, words) = words.number()?;
    let (offset, words) = words.number()?;
    if !words.is_empty() || !is_inside(sites, pages, site, offset) {
        return None;
    }
    Some(WorkloadAccess {
        site: SiteId(site),
        asked: Asked::Load { at: 0, offset },
    })
}

fn store(sites: Sites, pages: u32, words: Words<'_>) -> Option<WorkloadAccess>
    requires { pages ≤ PAGES }
    ensures { result ≡ said.store_of sites pages words.entry }
{
    let (site, words) = words.number()?;
    let (offset, words) = words.number()?;
    let (byte, words) = words.byte()?;
    if !words.is_empty() || !is_inside(sites, pages, site, offset) {
        return None;
    }
    Some(WorkloadAccess {
        site: SiteId(site),
        asked: Asked::Store {
            at: 0,
            offset,
            byte,
        },
    })
}

/// Checks that there is such a site, and that the offset lies inside the pages.
fn is_inside(sites: Sites, pages: u32, site: u32, offset: u32) -> bool
    requires { pages ≤ PAGES }
    ensures { result ≡ said.is_inside sites pages site offset }
{
    site < sites.count() && offset < pages * PAGE_BYTES as u32
}
