//! Makes a site's holdings from what was read of such: entries first, then the purged segments, the attachments and the copies.
ghost use Rattle.std.specs.Prelude.{◌≡◌, ℕ, true, false, not, if◌then◌else◌, IfOk, OnOk, OnErr};
ghost use Rattle.shm_place.specs.declared.page_id.PageId.{PageId as Page};
ghost use Rattle.shm_model.specs.Basics.{at, at_page};
ghost use Rattle.shm_model.specs.Entry.{Nil};
ghost use Rattle.shm_model.specs.SegmentCalls.{of_segment};
ghost use Rattle.shm_model.specs.Site.{Site, is_attached};
ghost use Rattle.shm_attach.specs.Attachments.{attachments_of, with_attachments};
ghost use Rattle.shm_page.specs.Entry.{entry_of};
ghost use Rattle.shm_parts.specs.Entries.{is_stored};
ghost use Rattle.shm_parts.specs.Holdings.{SameSeat, held_entries, held_frames, with_holdings};
ghost use Rattle.shm_parts.specs.Purged.{purged_of};
ghost use Rattle.shm_parts.specs.Restored.{StillStored, is_new_copy, may_be_copy, with_copy};

use crate::frame_order::Frames;
use crate::holdings::Holdings;
use shm_page::Entry;
use shm_place::{PageId, SegId};
use std::alloc::{AllocError, Allocator};

impl<A: Allocator + Copy> Holdings<A> {
    /// Stores this entry of the page, in place of what the site has of it. Where memory is refused nothing changes.
    pub fn restore_entry(&mut self, page: PageId, entry: Entry<A>) -> Result<(), AllocError>
        requires { purged_of self.old.purged page.seg ≡ false }
        ensures after { OnOk result ((sites me : ℕ) → (site : Site) → with_holdings sites me self.new site
            ≡ record (with_holdings sites me self.old site) { entries = at_page (held_entries sites me self.old) page (entry_of entry) }) }
        ensures refused { OnErr result ((sites me : ℕ) → (site : Site) → with_holdings sites me self.new site ≡ with_holdings sites me self.old site) }
        ensures stored { OnOk result (is_stored self.new.entries page ≡ true) }
        ensures stays { StillStored self.old self.new }
        ensures seat { SameSeat self.old self.new }
    {
        match self.entries.restore(page, entry) {
            Err(error) => Err(error),
            Ok(()) => Ok(()),
        }
    }

    /// Notes the segment as purged, unless an attachment names it: of its pages nothing is left. Tells whether it did. Where memory is
    /// refused nothing changes.
    pub fn restore_purged(&mut self, id: SegId) -> Result<bool, AllocError>
        ensures unnamed { IfOk result (λ done. (site : Site) → done ≡ not (is_attached (with_attachments (attachments_of self.old.attachments) site) id)) }
        ensures after { IfOk result (λ done. (sites me : ℕ) → (site : Site) → with_holdings sites me self.new site
            ≡ (if done then record (with_holdings sites me self.old site) {
              entries = of_segment id (Nil 0) (held_entries sites me self.old);
              purged = at (purged_of self.old.purged) id true;
            }
            else with_holdings sites me self.old site)) }
        ensures refused { OnErr result ((sites me : ℕ) → (site : Site) → with_holdings sites me self.new site ≡ with_holdings sites me self.old site) }
        ensures stays { StillStored self.old self.new }
        ensures seat { SameSeat self.old self.new }
    {
        if self.attachments.names(id) {
            return Ok(false);
        }
        match self.purged.insert(id) {
            Err(error) => Err(error),
            Ok(()) => Ok(true),
        }
    }

    /// Counts the page as a copy, the last to go. Ok(false): no copies are counted, the page is one already, or no entry of it is stored;
    /// then nothing changes, nor where memory is refused.
    pub fn restore_copy(&mut self, page: &PageId) -> Result<bool, AllocError>
        ensures joins { IfOk result (λ joins. joins ≡ may_be_copy page.now self.old) }
        ensures after { IfOk result (λ joins. (sites me : ℕ) → (site : Site) → with_holdings sites me self.new site
            ≡ (if joins then record (with_holdings sites me self.old site) { frames = with_copy page.now (held_frames self.old.frames) }
            else with_holdings sites me self.old site)) }
        ensures refused { OnErr result ((sites me : ℕ) → (site : Site) → with_holdings sites me self.new site ≡ with_holdings sites me self.old site) }
        ensures stays { StillStored self.old self.new }
        ensures seat { SameSeat self.old self.new }
    {
        let Some(_entry) = self.entries.get(*page) else {
            return Ok(false);
        };
        join_copies(&mut self.frames, page)
    }
}

/// Puts the page behind the copies, if copies are counted and it isn't one. Answers whether it did.
fn join_copies<A: Allocator + Copy>(
    frames: &mut Option<Frames<A>>,
    page: &PageId,
) -> Result<bool, AllocError>
    ensures joins { IfOk result (λ joins. joins ≡ is_new_copy page.now (held_frames frames.old)) }
    ensures after { IfOk result (λ joins. held_frames frames.new ≡ (if joins then with_copy page.now (held_frames frames.old) else held_frames frames.old)) }
    ensures refused { OnErr result (held_frames frames.new ≡ held_frames frames.old) }
{
    match frames {
        None => Ok(false),
        Some(frames) => frames.restore(page),
    }
}
