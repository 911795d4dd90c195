//! The lines of a workload.
ghost use Rattle.std.specs.Prelude.{◌≡◌, ◌≤◌, length, None, IfNone, IfSome, IsSome};
ghost use Rattle.shm_lines.specs.Workload as said;

use crate::hints::expected_word::Word;
use crate::hints::hint::Hint;
use crate::hints::read_words::{first_fault, read_word};
use crate::hints::workload_line::{access_of, preset_of};
use shm_place::{PAGE_BYTES, PAGES, Sites};

/// Finds where the first line of a workload, `preset P`, goes wrong. A right line has no hint.
pub fn hint_of_first_line(line: &[u8]) -> Option<Hint>
    ensures right { IfNone result (IsSome (said.preset_of line.now)) }
    ensures wrong { IfSome result (λ hint. said.preset_of line.now ≡ None) }
    ensures within { IfSome result (λ hint. hint.at ≤ length line.now) }
{
    match preset_of(line) {
        Some(_) => None,
        None => Some(fault_of_first_line(line)),
    }
}

/// Finds where a further line of a workload goes wrong. A right line, an access at one of these sites to one of this many pages of segment
/// 0, has no hint.
pub fn hint_of_access_line(sites: Sites, pages: u32, line: &[u8]) -> Option<Hint>
    requires { pages ≤ PAGES }
    ensures right { IfNone result (IsSome (said.access_of sites pages line.now)) }
    ensures wrong { IfSome result (λ hint. said.access_of sites pages line.now ≡ None) }
    ensures within { IfSome result (λ hint. hint.at ≤ length line.now) }
{
    match access_of(sites, pages, line) {
        Some(_) => None,
        None => Some(fault_of_access_line(sites, pages, line)),
    }
}

/// Finds where a wrong first line can't be read on.
fn fault_of_first_line(line: &[u8]) -> Hint
    ensures { result.at ≤ length line.now }
{
    match read_word(Word::Preset, line, 0) {
        Ok(end) => first_fault(&[Word::Pages], line, end),
        Err(hint) => hint,
    }
}

/// Finds where a wrong access can't be read on.
fn fault_of_access_line(sites: Sites, pages: u32, line: &[u8]) -> Hint
    requires { pages ≤ PAGES }
    ensures { result.at ≤ length line.now }
{
    let site = Word::SiteBelow(sites.count());
    let offset = Word::OffsetBelow(pages * PAGE_BYTES as u32);
    match read_word(Word::AccessVerb, line, 0) {
        Ok(end) => {
            if &line[..end] == b"load".as_slice() {
                return first_fault(&[site, offset], line, end);
            }
            first_fault(&[site, offset, Word::Byte], line, end)
        }
        Err(hint) => hint,
    }
}
