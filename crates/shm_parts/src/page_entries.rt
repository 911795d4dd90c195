//! The entries that a site has stored, and their changes.
ghost use Rattle.std.specs.Prelude.{◌≡◌, ℕ, ◌+◌, ◌<◌, ◌≤◌, ◌==◌, true, false, if◌then◌else◌, length, None, Some, option_copied, slice_get, IfOk, IfErr, IfNone, IfSome, OnOk, OnErr};
ghost use Rattle.shm_place.specs.declared.page_id.PageId.{PageId as Page};
ghost use Rattle.std.specs.List.{list_any};
ghost use Rattle.std.specs.Map.{keys_of};
ghost use Rattle.shm_place.specs.Limits.{page_bytes, pages};
ghost use Rattle.shm_place.specs.Page.{same_page};
ghost use Rattle.shm_model.specs.Access.{stored_entry};
ghost use Rattle.shm_model.specs.Entry as model;
ghost use Rattle.shm_model.specs.Basics.{at_page};
ghost use Rattle.shm_model.specs.Site.{untouched};
ghost use Rattle.shm_page.specs.Entry.{entry_of};
ghost use Rattle.shm_page.specs.Out.{out_of};

use crate::change_one_entry::{forget_in, open, store_in, turn_in};
use crate::entry_change::Change;
use crate::message::EntryNote;
use crate::page_map_helpers::end_of;
use crate::stored_entry_and_book::StoredEntry;
use indexmap::{IndexMap, map};
use shm_page::{Entry, Out};
use shm_place::{PageId, SegId, SiteId, Sites};
use std::alloc::{AllocError, Allocator, Global};
use std::hash::{BuildHasherDefault, FoldHasher};

/// The page entries that a site has stored. A page that isn't among them is untouched.
#[derive(Drop)]
pub struct Entries<A: Allocator + Copy = Global> {
    pub(crate) map: IndexMap<PageId, StoredEntry<A>, BuildHasherDefault<FoldHasher>, A>,
}

impl<A: Allocator + Copy> Entries<A> {
    ghost use Rattle.shm_parts.specs.Entries.{StandsAt, change_of, entries_of, is_stored, row, stored_at};
    ghost use Rattle.shm_parts.specs.Listed.{filled, stored_list};
    ghost use Rattle.shm_parts.specs.Message.{entry_note_of};

    /// Nothing is stored.
    pub fn new(alloc: A) -> Entries<A>
        ensures entries { (rest : Page → model.Entry) → entries_of rest result ≡ rest }
        ensures stored { is_stored result ≡ (λ _. false) }
    {
        Entries {
            map: IndexMap::new(alloc),
        }
    }

    /// The page's entry, if one is stored.
    // Out of line, so that the short way of `get_near` stays short.
    #[inline(never)]
    pub fn get(&self, page: PageId) -> Option<&Entry<A>>
        ensures { option_copied result ≡ stored_at self.now page }
    {
        let stored = self.map.get(&page)?;
        Some(&stored.entry)
    }

    /// The page's entry, if one is stored: the same as [`Entries::get`], and faster if it is at this place.
    #[inline(always)]
    pub(crate) fn get_near(&self, place: usize, page: PageId) -> Option<&Entry<A>>
        ensures { option_copied result ≡ stored_at self.now page }
    {
        if let Some((other, stored)) = self.map.get_index(place)
            && *other == page
        {
            return Some(&stored.entry);
        }
        self.get(page)
    }

    /// How many entries are stored.
    pub fn count(&self) -> usize
        ensures count { result ≡ length (stored_list self.now) }
        ensures listed { (rest : Page → model.Entry) → entries_of rest self.now ≡ filled rest (stored_list self.now) }
        ensures stored { is_stored self.now ≡ (λ page. list_any (same_page page) (keys_of (stored_list self.now))) }
    {
        self.map.len()
    }

    /// The entry in this place among those that are stored, and its page. None: not so many are stored.
    pub fn at_place(&self, place: usize) -> Option<(PageId, &Entry<A>)>
        ensures found { IfSome result (λ r. slice_get (stored_list self.now) place ≡ Some (r.0, entry_of r.1.now)) }
        ensures none { IfNone result (slice_get (stored_list self.now) place ≡ None) }
    {
        let Some((page, stored)) = self.map.get_index(place) else {
            return None;
        };
        Some((*page, &stored.entry))
    }

    /// Stores this entry of the page, in place of what was stored of it. Where memory is refused nothing changes.
    pub fn restore(&mut self, page: PageId, entry: Entry<A>) -> Result<(), AllocError>
        ensures entries { OnOk result ((rest : Page → model.Entry) → entries_of rest self.new ≡ at_page (entries_of rest self.old) page (entry_of entry)) }
        ensures stored { OnOk result (is_stored self.new ≡ at_page (is_stored self.old) page true) }
        ensures refused { OnErr result ((rest : Page → model.Entry) → entries_of rest self.new ≡ entries_of rest self.old) }
        ensures same { OnErr result (is_stored self.new ≡ is_stored self.old) }
    {
        match self.map.insert(page, StoredEntry { entry }) {
            Ok(_) => Ok(()),
            Err(_) => Err(AllocError),
        }
    }

    /// Stores the entry of an untouched page, unless its entry is stored already, and answers its place. As the definitions see it, nothing
    /// changes.
    pub fn ensure(
        &mut self,
        alloc: A,
        sites: Sites,
        me: SiteId,
        page: PageId,
    ) -> Result<usize, AllocError>
        ensures same { (rest : Page → model.Entry) → rest page ≡ untouched sites me page → entries_of rest self.new ≡ entries_of rest self.old }
        ensures stored { OnOk result (is_stored self.new page ≡ true) }
        ensures others { (other : Page) → is_stored self.old other ≡ true → is_stored self.new other ≡ true }
        ensures place { IfOk result (λ place. StandsAt page place self.new) }
    {
        let key = page;
        match self.map.entry(key)? {
            map::Entry::Occupied(stored) => Ok(stored.index()),
            map::Entry::Vacant(vacant) => {
                let place = vacant.index();
                let entry = open(alloc, sites, me, page)?;
                vacant.insert(entry);
                Ok(place)
            }
        }
    }

    /// Stores a byte where the page's entry is stored and may be written, and answers whether it did.
    // Out of line, so that the short way of `store_near` stays short.
    #[inline(never)]
    pub fn store(&mut self, page: PageId, within: usize, byte: u8) -> bool
        requires within { within < page_bytes }
        ensures writable { (rest : Page → model.Entry) → (is_stored self.old page ≡ false → model.writable (rest page) ≡ false)
            → result ≡ model.writable (entries_of rest self.old page) }
        ensures after { (rest : Page → model.Entry) → entries_of rest self.new
            ≡ (if result then at_page (entries_of rest self.old) page (stored_entry within byte (entries_of rest self.old page))
            else entries_of rest self.old) }
        ensures same { is_stored self.new ≡ is_stored self.old }
    {
        let Some(entry) = self.map.get_mut(&page) else {
            return false;
        };
        store_in(entry, within, byte)
    }

    /// Stores a byte as [`Entries::store`] does, and faster if the page's entry is at this place.
    #[inline(always)]
    pub(crate) fn store_near(&mut self, place: usize, page: PageId, within: usize, byte: u8) -> bool
        requires within { within < page_bytes }
        ensures writable { (rest : Page → model.Entry) → (is_stored self.old page ≡ false → model.writable (rest page) ≡ false)
            → result ≡ model.writable (entries_of rest self.old page) }
        ensures after { (rest : Page → model.Entry) → entries_of rest self.new
            ≡ (if result then at_page (entries_of rest self.old) page (stored_entry within byte (entries_of rest self.old page))
            else entries_of rest self.old) }
        ensures same { is_stored self.new ≡ is_stored self.old }
    {
        if let Some((standing, _entry)) = self.map.get_index(place)
            && *standing == page
        {
            let (_page, entry) = self.map.pair_mut(place);
            return store_in(entry, within, byte);
        }
        self.store(page, within, byte)
    }

    /// Runs the note's row of the table on the page's entry, which is at this place. Where memory is refused, the note comes back and
    /// nothing changes.
    pub fn turn(
        &mut self,
        me: SiteId,
        page: PageId,
        place: usize,
        note: EntryNote<A>,
    ) -> Result<(Out<A>, Change), EntryNote<A>>
        requires place { StandsAt page place self.old }
        ensures after { OnOk result ((rest : Page → model.Entry)
            → entries_of rest self.new ≡ at_page (entries_of rest self.old) page (row me (entry_note_of note) (entries_of rest self.old page)).0) }
        ensures out { IfOk result (λ r. (rest : Page → model.Entry) → out_of r.0 ≡ (row me (entry_note_of note) (entries_of rest self.old page)).1) }
        ensures change { IfOk result (λ r. (rest : Page → model.Entry)
            → r.1 ≡ change_of (entries_of rest self.old page) (row me (entry_note_of note) (entries_of rest self.old page)).0) }
        ensures same { is_stored self.new ≡ is_stored self.old }
        ensures back { IfErr result (λ back. entry_note_of back ≡ entry_note_of note) }
        ensures refused { OnErr result ((rest : Page → model.Entry) → entries_of rest self.new ≡ entries_of rest self.old) }
    {
        let (_page, entry) = self.map.pair_mut(place);
        turn_in(entry, me, note)
    }

    /// Gives the page's bytes up; what it met stays met.
    pub fn forget(&mut self, page: PageId)
        requires { is_stored self.old page ≡ true }
        ensures after { (rest : Page → model.Entry) → entries_of rest self.new
            ≡ at_page (entries_of rest self.old) page (model.forget (entries_of rest self.old page)) }
        ensures same { is_stored self.new ≡ is_stored self.old }
    {
        let Some(entry) = self.map.get_mut(&page) else {
            unreachable!()
        };
        forget_in(entry);
    }

    /// Drops what is stored of a segment's pages.
    pub fn remove_segment(&mut self, id: SegId)
        ensures gone { (index : ℕ) → index < pages → stored_at self.new (record { seg = id; index = index }) ≡ None }
        ensures others { (page : Page) → (id == page.seg) ≡ false → stored_at self.new page ≡ stored_at self.old page }
    {
        let end = end_of(&self.map, id);
        for index in 0..end {
            self.map.swap_remove(&PageId { seg: id, index });
        }
    }

    /// Equal entries.
    pub fn copy(&self) -> Result<Entries<A>, AllocError>
        ensures entries { IfOk result (λ copy. (rest : Page → model.Entry) → entries_of rest copy ≡ entries_of rest self.now) }
        ensures stored { IfOk result (λ copy. is_stored copy ≡ is_stored self.now) }
    {
        let map = self.map.clone()?;
        Ok(Entries { map })
    }
}
