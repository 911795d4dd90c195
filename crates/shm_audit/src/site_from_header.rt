//! The first line of a journal.
ghost use Rattle.std.specs.Prelude.{◌≡◌, ◌⊎◌, false, None, Some, IfErr, IfOk, option_map};
ghost use Rattle.shm_logs.specs.Boxes.SiteBox.{box_of};
ghost use Rattle.shm_audit.specs.Found.{opened};
ghost use Rattle.shm_journal.specs.declared.journal_error.JournalFault.TheVariants as fault;

use crate::box_replay::Audited;
use shm_journal::{JournalFault, parse_header};
use shm_logs::SiteBox;
use shm_place::{PAGES, SiteId, Sites};
use std::alloc::{AllocError, Allocator};

/// The site that the first line names, at which nothing has happened.
pub(crate) fn open_site<A: Allocator + Copy>(
    alloc: A,
    line: &[u8],
) -> Result<Audited<A>, JournalFault>
    ensures ok { IfOk result (λ site. opened line.now ≡ Some (box_of site.site_box)) }
    ensures fresh { IfOk result (λ site. site.begins_with_state ≡ false) }
    ensures err { IfErr result (λ f. (f ≡ fault.OutOfMemory) ⊎ ((f ≡ fault.BadLine 1) × (opened line.now ≡ None))) }
{
    let Some(header) = parse_header(line) else {
        return Err(JournalFault::BadLine(1));
    };
    let Ok(sites) = Sites::new(header.sites) else {
        return Err(JournalFault::BadLine(1));
    };
    if header.me >= sites.count() || header.pages < 1 || header.pages > PAGES {
        return Err(JournalFault::BadLine(1));
    }
    match SiteBox::new(alloc, sites, SiteId(header.me), header.pages) {
        Ok(site_box) => Ok(Audited {
            site_box,
            begins_with_state: false,
        }),
        Err(_) => Err(JournalFault::OutOfMemory),
    }
}
