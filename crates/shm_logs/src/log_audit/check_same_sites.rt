//! Checks that logs are those of one set of sites.
ghost use Rattle.std.specs.Prelude.{◌≡◌, ℕ, ◌<◌, ◌≤◌, ◌+◌, ◌↔◌, IsTrue, IfSome, None, MatchOption, length, map, slice_index_or};
ghost use Rattle.std.specs.List.{sum_by};
ghost use Rattle.shm_logs.specs.Boxes.Logged.{logged_of};
ghost use Rattle.shm_logs.specs.Boxes.SiteLog.{steps_of};
ghost use Rattle.shm_model.specs.Log.{sent_by};
ghost use Rattle.shm_model.specs.Basics.{max_sent};
ghost use Rattle.shm_logs.specs.Auditing.Logs.{logs_of, AreLogsOf, IsLogOf};

use crate::site_boxes::{SiteLog, Step};
use shm_model::MAX_SENT;
use shm_place::{SiteId, Sites};
use std::alloc::Allocator;

/// Checks that there is one log for each site, in the order of the sites, each of one of these sites with this number of pages in segment
/// 0, and that together they send at most 2^63 envelopes. Takes no memory.
pub fn logs_match<A: Allocator + Copy>(sites: Sites, pages: u32, logs: &[SiteLog<A>]) -> bool
    ensures { IsTrue result ↔ AreLogsOf sites pages logs.now }
{
    logs.len() == sites.count() as usize && in_place(sites, pages, logs) && are_numbered(logs)
}

/// Checks that each log is that of the site whose number is its index.
fn in_place<A: Allocator + Copy>(sites: Sites, pages: u32, logs: &[SiteLog<A>]) -> bool
    ensures { IsTrue result ↔ ((s : ℕ) (default : SiteLog A) → s < length logs.now → IsLogOf sites pages s (slice_index_or logs.now s default)) }
{
    'logs: for (index, log) in logs.iter().enumerate() {
        if !is_log_of(sites, pages, index, log) {
            return false;
        }
    }
    true
}

fn is_log_of<A: Allocator + Copy>(sites: Sites, pages: u32, site: usize, log: &SiteLog<A>) -> bool
    ensures { IsTrue result ↔ IsLogOf sites pages site log.now }
{
    log.sites() == sites && log.pages() == pages && log.site().0 as usize == site
}

/// Checks that the network has numbers for all envelopes that the logs send.
fn are_numbered<A: Allocator + Copy>(logs: &[SiteLog<A>]) -> bool
    ensures { IsTrue result ↔ (sum_by sent_by (logs_of logs.now) ≤ max_sent) }
{
    let mut left = MAX_SENT;
    'logs: for log in logs {
        match left_after(left, log.steps()) {
            Some(fewer) => left = fewer,
            None => return false,
        }
    }
    true
}

/// Takes a number for each envelope of these steps, and answers how many are left.
fn left_after<A: Allocator + Copy>(numbers: u64, steps: &[Step<A>]) -> Option<u64>
    ensures { MatchOption result (numbers < sent_by (map logged_of steps.now)) (λ left. left + sent_by (map logged_of steps.now) ≡ numbers) }
{
    let mut left = numbers;
    'steps: for step in steps {
        match left.checked_sub(step.sent.len() as u64) {
            Some(fewer) => left = fewer,
            None => return None,
        }
    }
    Some(left)
}
