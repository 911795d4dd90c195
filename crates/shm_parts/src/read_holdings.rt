//! The parts of a site's holdings, to be read.
ghost use Rattle.std.specs.Prelude.{◌≡◌, length, IfOk};
ghost use Rattle.std.specs.List.{IsDistinct};
ghost use Rattle.shm_place.specs.declared.page_id.PageId.{PageId as Page};
ghost use Rattle.shm_place.specs.Page.{same_page};
ghost use Rattle.shm_model.specs.Entry as model;
ghost use Rattle.shm_parts.specs.Entries.{entries_of};
ghost use Rattle.shm_parts.specs.Holdings.{held_frames};
ghost use Rattle.shm_parts.specs.Listed.{AreHeld, copies_held, filled, limit_held, purged_in, purged_list, stored_list};
ghost use Rattle.shm_parts.specs.Purged.{purged_of};

use crate::frame_order::Frames;
use crate::holdings::Holdings;
use crate::page_entries::Entries;
use crate::purged_segments::Purged;
use shm_attach::Attachments;
use shm_place::PageId;
use std::alloc::{AllocError, Allocator};

impl<A: Allocator + Copy> Holdings<A> {
    /// The entries that are stored.
    pub fn entries(&self) -> &Entries<A>
        ensures { result.now ≡ self.now.entries }
    {
        &self.entries
    }

    /// The attachments.
    pub fn attachments(&self) -> &Attachments
        ensures { result.now ≡ self.now.attachments }
    {
        &self.attachments
    }

    /// The segments that were purged.
    pub fn purged(&self) -> &Purged<A>
        ensures { result.now ≡ self.now.purged }
    {
        &self.purged
    }

    /// How many copies there may be, if that is limited.
    pub fn limit(&self) -> Option<u32>
        ensures { result ≡ limit_held (held_frames self.now.frames) }
    {
        match &self.frames {
            None => None,
            Some(frames) => Some(frames.limit()),
        }
    }

    /// How many entries are stored. They are those of a list, as the purged segments are.
    pub fn stored_count(&self) -> usize
        ensures count { result ≡ length (stored_list self.now.entries) }
        ensures entries { (rest : Page → model.Entry) → filled rest (stored_list self.now.entries) ≡ entries_of rest self.now.entries }
        ensures purged { purged_in (purged_list self.now.purged) ≡ purged_of self.now.purged }
        ensures held { AreHeld (stored_list self.now.entries) self.now.attachments (purged_list self.now.purged) (held_frames self.now.frames) }
    {
        let _purged = self.purged.count();
        let _copies = count_standing(&self.frames);
        self.entries.count()
    }

    /// The copies that are counted, the next to go first; none where there is no limit.
    pub fn copies(&self) -> Result<Vec<PageId, A>, AllocError>
        ensures { IfOk result (λ copies. copies.items ≡ copies_held (held_frames self.now.frames)) }
    {
        match &self.frames {
            None => Ok(Vec::new(self.alloc)),
            Some(frames) => frames.copies(self.alloc),
        }
    }
}

/// How many pages stand among the copies, with one for which room was made.
fn count_standing<A: Allocator + Copy>(frames: &Option<Frames<A>>) -> usize
    ensures { IsDistinct same_page (copies_held (held_frames frames.now)) }
{
    match frames {
        None => 0,
        Some(frames) => frames.standing_count(),
    }
}
