//! Purging: the site gives up all that it holds of a destroyed segment.
ghost use Rattle.std.specs.Prelude.{◌≡◌, ◌<◌, ℕ, [], not, false, true, if◌then◌else◌, IfOk, OnErr};
ghost use Rattle.shm_model.specs.Basics.{at};
ghost use Rattle.shm_model.specs.Entry.{Nil};
ghost use Rattle.shm_model.specs.SegmentCalls.{frames_without, of_segment};
ghost use Rattle.shm_model.specs.Site.{Site, is_attached};
ghost use Rattle.shm_attach.specs.Attachments.{attachments_of, with_attachments};
ghost use Rattle.shm_parts.specs.Holdings.{SameSeat, held_entries, held_frames, with_holdings};
ghost use Rattle.shm_parts.specs.Purged.{purged_of};

use crate::frame_order::Frames;
use crate::holdings::Holdings;
use crate::message::Envelope;
use crate::outbox::Outbox;
use shm_place::SegId;
use std::alloc::{AllocError, Allocator};

impl<A: Allocator + Copy> Holdings<A> {
    /// Checks that the site has purged the segment.
    pub fn is_purged(&self, id: SegId) -> bool
        ensures { result ≡ purged_of self.now.purged id }
    {
        self.purged.contains(id)
    }

    /// Gives up what is held of a destroyed segment, and notes it as purged, unless an attachment names it. Tells whether it did. Room
    /// is made for that note and for one envelope; where an attachment names the segment, none.
    pub fn purge<O: Outbox<Envelope<A>>>(
        &mut self,
        id: SegId,
        outbox: &mut O,
    ) -> Result<bool, AllocError>
        ensures unnamed { IfOk result (λ done. (site : Site) → done ≡ not (is_attached (with_attachments (attachments_of self.old.attachments) site) id)) }
        ensures after { IfOk result (λ done. (sites me : ℕ) → (site : Site) → with_holdings sites me self.new site
            ≡ (if done then record (with_holdings sites me self.old site) {
              entries = of_segment id (Nil 0) (held_entries sites me self.old);
              frames = frames_without id (held_frames self.old.frames);
              purged = at (purged_of self.old.purged) id true;
            }
            else with_holdings sites me self.old site)) }
        ensures refused { OnErr result ((sites me : ℕ) → (site : Site) → with_holdings sites me self.new site ≡ with_holdings sites me self.old site) }
        ensures seat { SameSeat self.old self.new }
        ensures spends { OnErr result ((site : Site) → is_attached (with_attachments (attachments_of self.old.attachments) site) id ≡ false) }
        ensures room { IfOk result (λ done. done ≡ true → 0 < O.room outbox.new) }
        ensures same { O.posted outbox.old outbox.new [] }
    {
        if self.attachments.names(id) {
            return Ok(false);
        }
        outbox.reserve(1)?;
        match self.purged.insert(id) {
            Err(error) => Err(error),
            Ok(()) => {
                self.entries.remove_segment(id);
                remove_copies(&mut self.frames, id);
                Ok(true)
            }
        }
    }
}

fn remove_copies<A: Allocator + Copy>(frames: &mut Option<Frames<A>>, id: SegId)
    ensures { held_frames frames.new ≡ frames_without id (held_frames frames.old) }
{
    if let Some(frames) = frames {
        frames.remove_segment(id);
    }
}
