//! A table that is made anew from what was read of it: its segments one after another, and then its pending purges.
ghost use Rattle.std.specs.Prelude.{◌≡◌, ◌≤◌, ◌++◌, ◌∷◌, [], true, IfOk, IfSome, OnOk, OnErr, length, option_map, slice_get, take, if◌then◌else◌};
ghost use Rattle.shm_model.specs.Permission.{destroyed};
ghost use Rattle.shm_keys.specs.Restored.{is_free_key, is_next_purge, is_next_segment, purge_from};

use crate::pending_purge::{Purge, is_above_all};
use crate::segment_record::Segment;
use crate::segment_table::{SegTable, place_of};
use crate::shmget::{id_at, index_key, reserve};
use shm_place::{Key, SEGMENTS_OF_A_HOME, SegId, SiteSet, home_of_id};
use std::alloc::{AllocError, Allocator};

/// 1 where the segment isn't destroyed.
fn live_one(segment: &Segment) -> usize
    ensures one { result ≡ (if destroyed segment.now then 0 else 1) }
    ensures few { result ≤ 1 }
{
    if segment.is_destroyed() {
        return 0;
    }
    1
}

impl<A: Allocator + Copy> SegTable<A> {
    ghost use Rattle.shm_keys.specs.Table.{is_purged_from};

    /// Takes the segment as the one that the home made last. False: the home can't have made it after those that are there, and nothing
    /// changes.
    pub fn restore_segment(&mut self, segment: Segment) -> Result<bool, AllocError>
        ensures taken { IfOk result (λ taken. taken ≡ is_next_segment self.old.home self.old.sites self.old.segments segment) }
        ensures after { IfOk result (λ taken. self.new ≡ (if taken then record self.old { segments = self.old.segments ++ segment ∷ [] } else self.old)) }
        ensures unchanged { OnErr result (self.new ≡ self.old) }
    {
        if !self.is_next(&segment) {
            return Ok(false);
        }
        self.push_next(segment)?;
        Ok(true)
    }

    fn push_next(&mut self, segment: Segment) -> Result<(), AllocError>
        requires { is_next_segment self.old.home self.old.sites self.old.segments segment ≡ true }
        ensures after { OnOk result (self.new ≡ record self.old { segments = self.old.segments ++ segment ∷ [] }) }
        ensures unchanged { OnErr result (self.new ≡ self.old) }
    {
        reserve(
            &mut self.segments,
            &mut self.keys,
            &mut self.purges,
            self.live,
        )?;
        let place = self.segments.len();
        let _ = self.segments.push(segment);
        index_key(&mut self.keys, segment.key, place);
        self.live += live_one(&segment);
        Ok(())
    }

    /// Checks that the home can have made the segment after those that are there.
    fn is_next(&self, segment: &Segment) -> bool
        ensures { result ≡ is_next_segment self.now.home self.now.sites self.now.segments segment.now }
    {
        let place = self.segments.len();
        if place >= SEGMENTS_OF_A_HOME as usize {
            return false;
        }
        if segment.id != id_at(place, self.sites, self.home) {
            return false;
        }
        self.is_free(segment.key)
    }

    fn is_free(&self, key: Key) -> bool
        ensures { result ≡ is_free_key key self.now.segments }
    {
        if key.0 == 0 {
            return true;
        }
        self.with_key(key).is_none()
    }

    /// Puts a destroyed segment, and the sites that have yet to purge it, behind those that are there. False: it can't stand there, and
    /// nothing changes.
    pub fn restore_purge(&mut self, id: SegId, missing: SiteSet) -> Result<bool, AllocError>
        ensures taken { IfOk result (λ taken. taken ≡ is_next_purge self.old.segments self.old.missing (purge_from (id, missing))) }
        ensures after { IfOk result (λ taken. self.new ≡ (if taken then record self.old { missing = self.old.missing ++ purge_from (id, missing) ∷ [] } else self.old)) }
        ensures unchanged { OnErr result (self.new ≡ self.old) }
    {
        if !self.is_next_purge(id, missing) {
            return Ok(false);
        }
        self.push_purge(id, missing)?;
        Ok(true)
    }

    fn push_purge(&mut self, id: SegId, missing: SiteSet) -> Result<(), AllocError>
        requires { is_next_purge self.old.segments self.old.missing (purge_from (id, missing)) ≡ true }
        ensures after { OnOk result (self.new ≡ record self.old { missing = self.old.missing ++ purge_from (id, missing) ∷ [] }) }
        ensures unchanged { OnErr result (self.new ≡ self.old) }
    {
        self.purges.reserve(self.live + 1)?;
        let _ = self.purges.push(Purge { id, missing });
        Ok(())
    }

    fn is_next_purge(&self, id: SegId, missing: SiteSet) -> bool
        ensures { result ≡ is_next_purge self.now.segments self.now.missing (purge_from (id, missing)) }
    {
        if missing.is_empty() {
            return false;
        }
        if !self.is_purged(id) {
            return false;
        }
        is_above_all(self.purges.as_slice(), id)
    }

    /// Checks that the home made the segment, and that it was destroyed.
    fn is_purged(&self, id: SegId) -> bool
        ensures { result ≡ is_purged_from self.now.segments id }
    {
        if home_of_id(self.sites, id) != self.home {
            return false;
        }
        let place = place_of(self.sites, id);
        if place >= self.segments.len() {
            return false;
        }
        let segment = self.segments[place];
        segment.is_destroyed()
    }

    /// The segment that the home made in this place, its first in place 0. It can be taken over after those before it.
    pub fn made_segment(&self, place: usize) -> Option<Segment>
        ensures segment { result ≡ slice_get self.now.segments place }
        ensures next { IfSome result (λ g. is_next_segment self.now.home self.now.sites (take place self.now.segments) g ≡ true) }
    {
        if place >= self.segments.len() {
            return None;
        }
        let segment = self.segments[place];
        Some(segment)
    }

    /// How many purges are pending.
    pub fn pending_count(&self) -> usize
        ensures { result ≡ length self.now.missing }
    {
        self.purges.len()
    }

    /// The pending purge in this place, that of the least identifier in place 0: the destroyed segment, and the sites that have yet to
    /// purge it. It can be put behind those before it.
    pub fn pending_purge(&self, place: usize) -> Option<(SegId, SiteSet)>
        ensures purge { option_map purge_from result ≡ slice_get self.now.missing place }
        ensures next { IfSome result (λ r. is_next_purge self.now.segments (take place self.now.missing) (purge_from r) ≡ true) }
    {
        if place >= self.purges.len() {
            return None;
        }
        let purge = self.purges[place];
        Some((purge.id, purge.missing))
    }
}
