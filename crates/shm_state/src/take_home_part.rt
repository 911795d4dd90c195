//! What a site keeps as a home of segments, as it is told.
ghost use Rattle.std.specs.Prelude.{◌≡◌, ◌&&◌, nat_lt};
ghost use Rattle.shm_place.specs.Limits.{max_sites};
ghost use Rattle.shm_state.specs.Part.{Kept, Missing, Segment as SegmentPart};
ghost use Rattle.shm_state.specs.Told.{Told as Said, misfit};
ghost use Rattle.shm_state.specs.ToldOf.{SameSeat, Takes, Tells};
ghost use Rattle.shm_keys.specs.Restored.{purge_from};

use crate::take_fault::TakeFault;
use crate::told_stage::Stage;
use crate::told_state::Told;
use shm_keys::Segment;
use shm_model::Reply;
use shm_number::Number;
use shm_place::{MAX_SITES, SegId, SiteId, SiteSet};
use std::alloc::Allocator;

impl<A: Allocator + Copy> Told<A> {
    /// Takes a segment as the one that the home made last.
    pub(crate) fn take_segment(&mut self, segment: Segment) -> Result<(), TakeFault>
        ensures told { (said : Said) → Tells self.old said
            → Takes (SegmentPart segment) said (misfit self.old.sites self.old.me (SegmentPart segment) said.state) result self.new }
        ensures seat { SameSeat self.old self.new }
    {
        let Ok(taken) = self.table.restore_segment(segment) else {
            return Err(TakeFault::OutOfMemory);
        };
        if !taken {
            return Err(TakeFault::Unfit);
        }
        self.last = Stage::Segments;
        Ok(())
    }

    /// Takes a destroyed segment, and the sites that have yet to purge it.
    pub(crate) fn take_missing(&mut self, id: SegId, missing: SiteSet) -> Result<(), TakeFault>
        ensures told { (said : Said) → Tells self.old said
            → Takes (Missing (purge_from (id, missing))) said (misfit self.old.sites self.old.me (Missing (purge_from (id, missing))) said.state) result self.new }
        ensures seat { SameSeat self.old self.new }
    {
        let Ok(taken) = self.table.restore_purge(id, missing) else {
            return Err(TakeFault::OutOfMemory);
        };
        if !taken {
            return Err(TakeFault::Unfit);
        }
        self.last = Stage::Missing;
        Ok(())
    }

    /// Takes the last reply to a site.
    pub(crate) fn take_kept(
        &mut self,
        site: SiteId,
        number: Number,
        reply: Reply,
    ) -> Result<(), TakeFault>
        ensures told { (said : Said) → Tells self.old said
            → Takes (Kept site number reply) said (misfit self.old.sites self.old.me (Kept site number reply) said.state) result self.new }
        ensures seat { SameSeat self.old self.new }
    {
        if !fits_kept(site, number) {
            return Err(TakeFault::Unfit);
        }
        if self.kept.last(site).is_some() {
            return Err(TakeFault::Twice);
        }
        self.kept.keep(site, number, reply);
        self.last = Stage::Kept;
        Ok(())
    }
}

/// Checks that there may be such a site, and that a call can have the number.
fn fits_kept(site: SiteId, number: Number) -> bool
    ensures { result ≡ (nat_lt site max_sites && nat_lt 0 number) }
{
    site.0 < MAX_SITES && 0 < number
}
