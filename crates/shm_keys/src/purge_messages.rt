ghost use Rattle.std.specs.Prelude.{◌≡◌, ℕ, ◌≤◌, ◌==◌, ◌&&◌, not, true, false, nat_le, IfSome, IsSomeAnd};
ghost use Rattle.shm_keys.specs.Purge.{is_above};
ghost use Rattle.shm_place.specs.SiteSet.{has, has_none};

use crate::pending_purge::{place_of, strike_out};
use crate::segment_table::SegTable;
use shm_place::{SegId, SiteId, SiteSet};
use std::alloc::Allocator;

impl<A: Allocator + Copy> SegTable<A> {
    ghost use Rattle.shm_keys.specs.Table.{IsNumbered, is_purged_from, missing_of};

    /// The destroyed segment with the least identifier, above the one given, that sites have yet to purge; and these sites.
    pub fn next_purge(&self, after: Option<SegId>) -> Option<(SegId, SiteSet)>
        ensures above { IfSome result (λ r. is_above after r.0 ≡ true) }
        ensures least { (id site : ℕ) → is_above after id ≡ true → missing_of self.now id site ≡ true → IsSomeAnd result (λ r. r.0 ≤ id) }
        ensures sites { IfSome result (λ r. (site : ℕ) → has r.1 site ≡ missing_of self.now r.0 site) }
        ensures some { IfSome result (λ r. has_none r.1 ≡ false) }
        ensures destroyed { IfSome result (λ r. is_purged_from self.now.segments r.0 ≡ true) }
        ensures numbered { IsNumbered self.now.home self.now.sites self.now.segments }
    {
        let place = place_of(self.purges.as_slice(), first_after(after));
        if place >= self.purges.len() {
            return None;
        }
        let purge = self.purges[place];
        Some((purge.id, purge.missing))
    }

    /// A site has purged a segment, which it is missing of no longer. Tells whether it was.
    pub fn on_purged(&mut self, id: SegId, site: SiteId) -> bool
        ensures was_missing { result ≡ missing_of self.old id site }
        ensures missing { (other at : ℕ) → missing_of self.new other at ≡ (missing_of self.old other at && not ((other == id) && (at == site))) }
        ensures rest { self.new ≡ record self.old { missing = self.new.missing } }
    {
        strike_out(&mut self.purges, id, site)
    }
}

/// The least number above the identifier, if one is given.
fn first_after(after: Option<SegId>) -> u64
    ensures { (id : ℕ) → is_above after id ≡ nat_le result id }
{
    match after {
        None => 0,
        Some(id) => id.0 as u64 + 1,
    }
}
