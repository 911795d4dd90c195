ghost use Rattle.std.specs.Prelude.{◌≡◌, ◌<◌, ◌+◌, ◌*◌, ◌^◌};
ghost use Rattle.std.specs.Cmp.Rules.{comparing, hashing};
ghost use Rattle.std.specs.Hash as fed;
ghost use Rattle.std.proofs.Common.{rules};
ghost use Rattle.shm_place.specs.Page;

use crate::identifiers_and_homes::{SegId, SiteId};
use crate::limits::{PAGES, SEGMENTS_OF_A_HOME};
use crate::site_count::Sites;
use std::hash::{Hash, Hasher};

/// A page: the segment that it belongs to, and its index there, from 0.
#[derive(Clone, Copy, Debug)]
pub struct PageId {
    pub seg: SegId,
    pub index: u32,
}

impl PartialEq for PageId {
    ghost eq = { Page.same_page };

    ghost laws = { Prim.search (comparing, rules) };

    fn eq(&self, other: &PageId) -> bool {
        self.seg == other.seg && self.index == other.index
    }
}

impl Eq for PageId {
    ghost laws = { Prim.search (comparing, rules) };
}

impl Hash for PageId {
    ghost hash_input = { λ page. fed.u64 (page.seg * 2 ^ 32 + page.index) };

    ghost respects_eq = { Prim.search (hashing, rules) };

    fn hash<H: Hasher>(&self, state: &mut H) {
        // One number for both, so that the hasher multiplies once.
        state.write_u64((u64::from(self.seg.0) << 32) + u64::from(self.index));
    }
}

/// The page's manager: the fixed distributed manager of Li and Hudak 1989, §3.2.
pub fn manager_of(sites: Sites, page: PageId) -> SiteId
    ensures manager { result ≡ Page.manager_of sites page }
    ensures below { result < sites }
{
    let sum = page.seg.0 as u64 + page.index as u64;
    SiteId((sum % sites.count() as u64) as u32)
}

/// Checks that some home could give the segment's identifier, and that some segment can have a page of this index.
pub fn in_limits(sites: Sites, page: PageId) -> bool
    ensures limits { result ≡ Page.in_limits sites page }
{
    page.seg.0 < SEGMENTS_OF_A_HOME * sites.count() && page.index < PAGES
}
