//! How a note to a page's entry changes a site's holdings.
ghost use Rattle.std.specs.Prelude.{◌≡◌, ℕ, false, true, IfErr, IfOk, OnOk, OnErr};
ghost use Rattle.shm_model.specs.Site.{Site};
ghost use Rattle.shm_model.specs.Transfer.{to_entry};
ghost use Rattle.shm_parts.specs.Entries.{StandsAt, is_stored, row};
ghost use Rattle.shm_parts.specs.Frames.{installs};
ghost use Rattle.shm_parts.specs.Holdings.{SameSeat, held_entries, arranged_frames, held_frames, rearranged, turned_step, with_holdings};
ghost use Rattle.shm_parts.specs.Message.{brings_copy, entry_note_of};
ghost use Rattle.shm_parts.specs.Purged.{purged_of};
ghost use Rattle.shm_parts.specs.Reach.{has_space};

use crate::entry_change::Change;
use crate::frame_order::Frames;
use crate::holdings::Holdings;
use crate::message::{EntryNote, Envelope};
use crate::page_envelopes::envelope_out;
use shm_place::PageId;
use std::alloc::{AllocError, Allocator};

impl<A: Allocator + Copy> Holdings<A> {
    /// Runs the row of the entry's table that fits the note, and puts the copies in order. Answers what to send, if anything, and what
    /// changed. Where memory is refused the note comes back and nothing changes.
    pub fn turn(
        &mut self,
        page: &PageId,
        note: EntryNote<A>,
    ) -> Result<Option<(Envelope<A>, Change)>, EntryNote<A>>
        requires { purged_of self.old.purged page.now.seg ≡ false }
        ensures step { IfOk result (λ sent. (site : Site)
            → to_entry self.old.sites self.old.me page.now (row self.old.me (entry_note_of note) (held_entries self.old.sites self.old.me self.old page.now))
            (with_holdings self.old.sites self.old.me self.old site) ≡ turned_step page.now sent (with_holdings self.old.sites self.old.me self.new) site) }
        ensures back { IfErr result (λ back. entry_note_of back ≡ entry_note_of note) }
        ensures refused { OnErr result ((site : Site) → with_holdings self.old.sites self.old.me self.new site
            ≡ with_holdings self.old.sites self.old.me self.old site) }
        ensures seat { SameSeat self.old self.new }
    {
        match self.make_room(page, &note) {
            Ok(place) => self.turn_stored(page, place, note),
            Err(_) => Err(note),
        }
    }

    /// Makes room for what the note of the page may add, and answers the place of the page's entry.
    fn make_room(&mut self, page: &PageId, note: &EntryNote<A>) -> Result<usize, AllocError>
        ensures same { (site : Site) → with_holdings self.old.sites self.old.me self.new site ≡ with_holdings self.old.sites self.old.me self.old site }
        ensures seat { SameSeat self.old self.new }
        ensures purged { purged_of self.new.purged ≡ purged_of self.old.purged }
        ensures stored { OnOk result (is_stored self.new.entries page.now ≡ true) }
        ensures place { IfOk result (λ place. StandsAt page.now place self.new.entries) }
        ensures room { OnOk result (brings_copy note.now ≡ true → has_space page.now self.new.frames) }
    {
        reserve_copy(&mut self.frames, page, note)?;
        self.entries.ensure(self.alloc, self.sites, self.me, *page)
    }

    /// Runs the note's row, where room was made for it.
    fn turn_stored(
        &mut self,
        page: &PageId,
        place: usize,
        note: EntryNote<A>,
    ) -> Result<Option<(Envelope<A>, Change)>, EntryNote<A>>
        requires alive { purged_of self.old.purged page.now.seg ≡ false }
        requires stored { is_stored self.old.entries page.now ≡ true }
        requires place { StandsAt page.now place self.old.entries }
        requires room { brings_copy note ≡ true → has_space page.now self.old.frames }
        ensures step { IfOk result (λ sent. (site : Site)
            → to_entry self.old.sites self.old.me page.now (row self.old.me (entry_note_of note) (held_entries self.old.sites self.old.me self.old page.now))
            (with_holdings self.old.sites self.old.me self.old site) ≡ turned_step page.now sent (with_holdings self.old.sites self.old.me self.new) site) }
        ensures back { IfErr result (λ back. entry_note_of back ≡ entry_note_of note) }
        ensures refused { OnErr result ((site : Site) → with_holdings self.old.sites self.old.me self.new site
            ≡ with_holdings self.old.sites self.old.me self.old site) }
        ensures seat { SameSeat self.old self.new }
    {
        let (out, change) = match self.entries.turn(self.me, *page, place, note) {
            Ok(turned) => turned,
            Err(note) => return Err(note),
        };
        let Some(envelope) = envelope_out(self.sites, self.me, page, out) else {
            return Ok(None);
        };
        self.arrange(page, change);
        Ok(Some((envelope, change)))
    }

    /// Puts the copies in order after a change at the page, and gives one up where there are too many.
    fn arrange(&mut self, page: &PageId, change: Change)
        requires stored { is_stored self.old.entries page.now ≡ true }
        requires room { installs change ≡ true → has_space page.now self.old.frames }
        ensures copies { (sites me : ℕ) → (site : Site) → with_holdings sites me self.new site
            ≡ rearranged change page.now (with_holdings sites me self.old site) }
        ensures seat { SameSeat self.old self.new }
    {
        let Some(first) = arrange_copies(&mut self.frames, page, change) else {
            return;
        };
        self.entries.forget(first);
    }
}

/// Makes room for a copy, where the note may bring one and copies are counted.
fn reserve_copy<A: Allocator + Copy>(
    frames: &mut Option<Frames<A>>,
    page: &PageId,
    note: &EntryNote<A>,
) -> Result<(), AllocError>
    ensures same { held_frames frames.new ≡ held_frames frames.old }
    ensures room { OnOk result (brings_copy note.now ≡ true → has_space page.now frames.new) }
{
    match (frames, note) {
        (Some(frames), EntryNote::Read(_)) => frames.reserve(page),
        _ => Ok(()),
    }
}

/// The copy to give up, where there are too many after the change.
fn arrange_copies<A: Allocator + Copy>(
    frames: &mut Option<Frames<A>>,
    page: &PageId,
    change: Change,
) -> Option<PageId>
    requires { installs change ≡ true → has_space page.now frames.old }
    ensures { (result, held_frames frames.new) ≡ arranged_frames change page.now (held_frames frames.old) }
{
    match frames {
        None => None,
        Some(frames) => {
            frames.arrange(*page, change);
            frames.overflow()
        }
    }
}
