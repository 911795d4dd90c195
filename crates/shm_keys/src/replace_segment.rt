ghost use Rattle.std.specs.Prelude.{◌≡◌, ℕ, ◌+◌, ◌<◌, ◌⊎◌, ◌==◌, ◌&&◌, Bool, not, true, false, length, slice_index_or, vec_len, vec_capacity, nat_eq, if◌then◌else◌, Some, None};
ghost use Rattle.std.specs.Bool.{OnFalse};
ghost use Rattle.indexmap.specs.IndexMap.{get};
ghost use Rattle.shm_place.specs.Home.{home_of_id};
ghost use Rattle.shm_model.specs.Permission.{destroyed};
ghost use Rattle.shm_model.specs.Kernel.{destroyed_in, replaced};
ghost use Rattle.shm_keys.specs.Purge.{missing_in, missing_after, AllMissing, AllPass, IsRising};
ghost use Rattle.shm_keys.specs.declared.pending_purge.Purge.{Purge as Record};

use crate::pending_purge::{Purge, begin};
use crate::segment_record::Segment;
use crate::segment_table::{SegTable, place_of};
use indexmap::IndexMap;
use shm_place::{Key, SegId, Sites};
use std::alloc::Allocator;
use std::hash::{BuildHasherDefault, FoldHasher};

/// A key that its segment has no longer leaves the index.
fn free_key<A: Allocator + Copy>(
    keys: &mut IndexMap<u32, usize, BuildHasherDefault<FoldHasher>, A>,
    before: Key,
    after: Key,
)
    ensures { (key : ℕ) → get nat_eq keys.new key ≡ (if not (before == after) && (before == key) then None else get nat_eq keys.old key) }
{
    if before != after {
        keys.swap_remove(&before.0);
    }
}

/// Replaces a live segment's record. `Some`: this destroyed the segment, so it isn't live, and all sites still have to purge it.
fn settle<A: Allocator>(
    live: &mut usize,
    purges: &mut Vec<Purge, A>,
    after: &Segment,
    sites: Sites,
) -> Option<SegId>
    requires one { 0 < live.old }
    requires some_sites { 0 < sites }
    requires room { vec_len purges.old < vec_capacity purges.old }
    requires rising { IsRising purges.old.items }
    requires all_missing { AllMissing purges.old.items }
    requires absent { (k : ℕ) (d : Record) → k < length purges.old.items → (slice_index_or purges.old.items k d).id ≡ after.now.id → ⊥ }
    ensures gone { result ≡ (if destroyed after.now then Some after.now.id else None) }
    ensures live { live.new + (if destroyed after.now then 1 else 0) ≡ live.old }
    ensures places { live.new + vec_len purges.new ≡ live.old + vec_len purges.old }
    ensures capacity { vec_capacity purges.new ≡ vec_capacity purges.old }
    ensures unmoved { OnFalse (destroyed after.now) (purges.new.items ≡ purges.old.items) }
    ensures missing { (id site : ℕ) → missing_in purges.new.items id site ≡ missing_after result sites (missing_in purges.old.items) id site }
    ensures rising { IsRising purges.new.items }
    ensures all_missing { AllMissing purges.new.items }
    ensures pass { (test : ℕ → Bool) → AllPass test purges.old.items → (destroyed after.now ≡ true → test after.now.id ≡ true) → AllPass test purges.new.items }
{
    if after.is_destroyed() {
        *live -= 1;
        begin(purges, after.id, sites);
        return Some(after.id);
    }
    None
}

impl<A: Allocator + Copy> SegTable<A> {
    ghost use Rattle.shm_keys.specs.Table.{IsLive, missing_of};

    /// Replaces a live segment's record. `Some`: the segment, which this destroyed; all sites still have to purge it.
    pub(crate) fn replace(&mut self, before: Segment, after: Segment) -> Option<SegId>
        requires home { home_of_id self.old.sites after.id ≡ self.old.home }
        requires live { IsLive self.old.segments after.id before }
        requires key { (after.key ≡ before.key) ⊎ (after.key ≡ 0) }
        ensures table { self.new ≡ record self.old { segments = replaced after.id after self.old.segments; missing = self.new.missing } }
        ensures gone { destroyed_in (Some after.id) self.old.segments self.new.segments ≡ result }
        ensures unmoved { OnFalse (destroyed after) (self.new.missing ≡ self.old.missing) }
        ensures missing { (id site : ℕ) → missing_of self.new id site ≡ missing_after result self.old.sites (missing_of self.old) id site }
    {
        let place = place_of(self.sites, after.id);
        free_key(&mut self.keys, before.key, after.key);
        let gone = settle(&mut self.live, &mut self.purges, &after, self.sites);
        self.segments[place] = after;
        gone
    }
}
