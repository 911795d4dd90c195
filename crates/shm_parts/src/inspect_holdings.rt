//! Shows a site's holdings.
ghost use Rattle.std.specs.Prelude.{◌≡◌, ℕ, false, if◌then◌else◌, IfOk};
ghost use Rattle.shm_model.specs.Entry as model;
ghost use Rattle.shm_model.specs.Entry.{Nil, OwnWrite};
ghost use Rattle.shm_model.specs.Site.{Site, blank};
ghost use Rattle.shm_page.specs.Entry.{entry_of};
ghost use Rattle.shm_parts.specs.Holdings.{SameSeat, access_of, held_entries, held_frames, shown_of, state_of, with_holdings};
ghost use Rattle.shm_parts.specs.Purged.{purged_of};

use crate::frame_order::Frames;
use crate::holdings::Holdings;
use shm_model::{Access, Shown, State};
use shm_page::Entry;
use shm_place::{PageId, manager_of};
use std::alloc::{AllocError, Allocator};

impl<A: Allocator + Copy> Holdings<A> {
    /// The access that the site has to the page.
    pub fn access(&self, page: PageId) -> Access
        ensures { result ≡ access_of (held_entries self.now.sites self.now.me self.now page) }
    {
        let place = &page;
        if self.purged.contains(place.seg) {
            return Access::Nil;
        }
        match self.entries.get(*place) {
            Some(entry) => access_to(entry),
            None if manager_of(self.sites, *place) == self.me => Access::Write,
            None => Access::Nil,
        }
    }

    /// The page's state here, and the greatest transaction number that it met.
    pub fn shown(&self, page: PageId) -> Shown
        ensures { result ≡ shown_of (purged_of self.now.purged page.seg) (held_entries self.now.sites self.now.me self.now page) }
    {
        let place = &page;
        if self.purged.contains(place.seg) {
            return Shown {
                state: State::Purged,
                seen: 0,
            };
        }
        match self.entries.get(*place) {
            Some(entry) => Shown {
                state: state_of(entry),
                seen: entry.seen(),
            },
            None => untouched_page(manager_of(self.sites, *place) == self.me),
        }
    }

    /// The bytes that the site has of the page, copied; none where it has none.
    pub fn bytes(&self, page: PageId) -> Result<Vec<u8, A>, AllocError>
        ensures { IfOk result (λ bytes. bytes.items ≡ model.bytes (held_entries self.now.sites self.now.me self.now page)) }
    {
        let place = &page;
        if self.purged.contains(place.seg) {
            return Ok(Vec::new(self.alloc));
        }
        if let Some(entry) = self.entries.get(*place) {
            return entry.bytes(self.alloc);
        }
        let untouched = Entry::opening(self.alloc, manager_of(self.sites, *place) == self.me)?;
        untouched.bytes(self.alloc)
    }

    /// Equal holdings.
    pub fn copy(&self) -> Result<Holdings<A>, AllocError>
        ensures held { IfOk result (λ copy. (sites me : ℕ) → (site : Site) → with_holdings sites me copy site ≡ with_holdings sites me self.now site) }
        ensures seat { IfOk result (λ copy. SameSeat self.now copy) }
    {
        let entries = self.entries.copy()?;
        let purged = self.purged.copy()?;
        let frames = copy_frames(&self.frames)?;
        Ok(Holdings {
            sites: self.sites,
            me: self.me,
            entries,
            attachments: self.attachments.copy(),
            first_places: self.first_places,
            purged,
            frames,
            alloc: self.alloc,
        })
    }
}

fn copy_frames<A: Allocator + Copy>(
    frames: &Option<Frames<A>>,
) -> Result<Option<Frames<A>>, AllocError>
    ensures { IfOk result (λ copy. held_frames copy ≡ held_frames frames.now) }
{
    match frames {
        None => Ok(None),
        Some(frames) => Ok(Some(frames.copy()?)),
    }
}

fn access_to<A: Allocator + Copy>(entry: &Entry<A>) -> Access
    ensures { result ≡ access_of (entry_of entry.now) }
{
    match entry {
        Entry::OwnWrite(_) => Access::Write,
        Entry::Copy(_) | Entry::OwnRead(_) => Access::Read,
        Entry::Nil(_) | Entry::Handed(_) => Access::Nil,
    }
}

fn state_of<A: Allocator + Copy>(entry: &Entry<A>) -> State
    ensures { result ≡ state_of (entry_of entry.now) }
{
    match entry {
        Entry::Nil(_) => State::Nil,
        Entry::Copy(_) => State::Copy,
        Entry::OwnRead(_) => State::OwnRead,
        Entry::OwnWrite(_) => State::OwnWrite,
        Entry::Handed(_) => State::Handed,
    }
}

/// An untouched page is its manager's to write.
fn untouched_page(is_manager: bool) -> Shown
    ensures { result ≡ shown_of false (if is_manager then OwnWrite 0 blank else Nil 0) }
{
    Shown {
        state: if is_manager {
            State::OwnWrite
        } else {
            State::Nil
        },
        seen: 0,
    }
}
