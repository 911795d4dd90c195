ghost use Rattle.std.specs.Prelude.{◌≡◌, ℕ, ◌+◌, ◌<◌, ◌≤◌, ◌==◌, ◌&&◌, ◌||◌, Bool, true, false, not, nat_lt, length, slice_index_or, vec_len, vec_capacity};
ghost use Rattle.shm_keys.specs.Purge.{missing_in, AllMissing, AllPass, IsRising};
ghost use Rattle.shm_keys.specs.Restored.{is_above_all};
ghost use Rattle.shm_keys.specs.declared.pending_purge.Purge.{Purge as Record};

use shm_place::{SegId, SiteId, SiteSet, Sites};
use std::alloc::Allocator;

/// A destroyed segment that some sites have yet to purge.
#[derive(Clone, Copy)]
pub(crate) struct Purge {
    pub id: SegId,
    pub missing: SiteSet,
}

/// The number of those below the identifier.
pub(crate) fn place_of(purges: &[Purge], id: u64) -> usize
    requires { IsRising purges.now }
    ensures within { result ≤ length purges.now }
    ensures below { (k : ℕ) (d : Record) → k < result → (slice_index_or purges.now k d).id < id }
    ensures above { (k : ℕ) (d : Record) → result ≤ k → k < length purges.now → id ≤ (slice_index_or purges.now k d).id }
{
    purges.partition_point(|purge| (purge.id.0 as u64) < id)
}

/// Checks that the identifier is above all that stand there.
pub(crate) fn is_above_all(purges: &[Purge], id: SegId) -> bool
    requires { IsRising purges.now }
    ensures { result ≡ is_above_all purges.now id }
{
    let place = place_of(purges, id.0 as u64);
    place == purges.len()
}

/// All sites have yet to purge the segment, which was destroyed.
pub(crate) fn begin<A: Allocator>(purges: &mut Vec<Purge, A>, id: SegId, sites: Sites)
    requires rising { IsRising purges.old.items }
    requires all_missing { AllMissing purges.old.items }
    requires absent { (k : ℕ) (d : Record) → k < length purges.old.items → (slice_index_or purges.old.items k d).id ≡ id → ⊥ }
    requires some_sites { 0 < sites }
    requires room { vec_len purges.old < vec_capacity purges.old }
    ensures missing { (other site : ℕ) → missing_in purges.new.items other site
        ≡ (missing_in purges.old.items other site || ((other == id) && nat_lt site sites)) }
    ensures rising { IsRising purges.new.items }
    ensures all_missing { AllMissing purges.new.items }
    ensures pass { (test : ℕ → Bool) → AllPass test purges.old.items → test id ≡ true → AllPass test purges.new.items }
    ensures one_more { vec_len purges.new ≡ vec_len purges.old + 1 }
    ensures capacity { vec_capacity purges.new ≡ vec_capacity purges.old }
{
    let purge = Purge {
        id,
        missing: SiteSet::all(sites),
    };
    let place = place_of(purges.as_slice(), id.0 as u64);
    let _ = purges.insert(place, purge);
}

/// Strikes the site, which has purged the segment, out of those that are missing. Tells whether it was one of them.
pub(crate) fn strike_out<A: Allocator>(purges: &mut Vec<Purge, A>, id: SegId, site: SiteId) -> bool
    requires rising { IsRising purges.old.items }
    requires all_missing { AllMissing purges.old.items }
    ensures was_missing { result ≡ missing_in purges.old.items id site }
    ensures missing { (other at : ℕ) → missing_in purges.new.items other at ≡ (missing_in purges.old.items other at && not ((other == id) && (at == site))) }
    ensures rising { IsRising purges.new.items }
    ensures all_missing { AllMissing purges.new.items }
    ensures pass { (test : ℕ → Bool) → AllPass test purges.old.items → AllPass test purges.new.items }
    ensures not_more { vec_len purges.new ≤ vec_len purges.old }
    ensures capacity { vec_capacity purges.new ≡ vec_capacity purges.old }
{
    let place = place_of(purges.as_slice(), id.0 as u64);
    if place >= purges.len() {
        return false;
    }
    let purge = purges[place];
    if purge.id != id || !purge.missing.contains(site) {
        return false;
    }
    let missing = purge.missing.without(site);
    if missing.is_empty() {
        purges.remove(place);
    } else {
        purges[place] = Purge { id, missing };
    }
    true
}
