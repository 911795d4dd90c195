//! Pages at places, in the order of the places.
ghost use Rattle.std.specs.Prelude.{◌≡◌, ◌≤◌, ◌<◌, ℕ, [], not, None, Some, cond, is_some, length, nat_le, nat_lt, IfNone, IfOk, IfSome, OnErr, OnOk, true};
ghost use Rattle.std.specs.BTreeMap as tree;
ghost use Rattle.std.specs.List.Sorted.{IsStrictlySortedBy};
ghost use Rattle.std.specs.Map.{keys_of, remove_entry, values_of};
ghost use Rattle.std.specs.Ordering.{nat_cmp};
ghost use Rattle.shm_parts.specs.Places.{is_behind, leading, page_at};

use shm_place::PageId;
use std::alloc::{AllocError, Allocator, Global};
use std::marker::Model;

/// Pages, each at a place, in the order of their places. They are in one vector, which keeps its room: putting a page where there was room
/// takes no memory, and a copy is one block.
#[derive(Drop)]
pub struct RisingPlaces<A: Allocator + Copy = Global> {
    pages: Vec<(u64, PageId), A>,
}

impl<A: Allocator + Copy> Model for RisingPlaces<A> {
    ghost use Rattle.std.specs.Prelude.{ℕ, List};
    ghost use Rattle.std.specs.List.Sorted.{IsStrictlySortedBy};
    ghost use Rattle.std.specs.Map.{keys_of};
    ghost use Rattle.std.specs.Ordering.{nat_cmp};
    ghost use Rattle.shm_place.specs.declared.page_id.PageId.{PageId as Page};

    ghost Value = { List (ℕ × Page) };

    ghost view = { λ rising. rising.pages.items };

    ghost invariant = { λ rising. IsStrictlySortedBy nat_cmp (keys_of rising.pages.items) };
}

impl<A: Allocator + Copy> RisingPlaces<A> {
    /// No pages.
    pub(crate) fn new(alloc: A) -> RisingPlaces<A>
        ensures { result ≡ [] }
    {
        RisingPlaces {
            pages: Vec::new(alloc),
        }
    }

    /// Puts a page at a place. Only for one more page than ever before may it need memory.
    pub(crate) fn put_at(&mut self, place: u64, page: PageId) -> Result<(), AllocError>
        ensures entries { OnOk result (self.new ≡ tree.insert_entry nat_cmp self.old place page) }
        ensures pages { OnOk result ((other : ℕ) → page_at self.new other ≡ cond (tree.is_at (nat_cmp place) other) (Some page) (page_at self.old other)) }
        ensures rising { IsStrictlySortedBy nat_cmp (keys_of self.new) }
        ensures refused { OnErr result (self.new ≡ self.old) }
        ensures absent { OnErr result (page_at self.old place ≡ None) }
    {
        let index = count_before(self.pages.as_slice(), place);
        if is_place_at(self.pages.as_slice(), index, place) {
            self.pages[index] = (place, page);
            return Ok(());
        }
        self.pages.reserve(1)?;
        let _ = self.pages.insert(index, (place, page));
        Ok(())
    }

    /// Takes the page at the place out, if there is one.
    pub(crate) fn remove(&mut self, place: u64)
        ensures entries { self.new ≡ remove_entry (tree.is_at (nat_cmp place)) self.old }
        ensures pages { (other : ℕ) → page_at self.new other ≡ cond (tree.is_at (nat_cmp place) other) None (page_at self.old other) }
        ensures rising { IsStrictlySortedBy nat_cmp (keys_of self.new) }
    {
        let index = count_before(self.pages.as_slice(), place);
        if is_place_at(self.pages.as_slice(), index, place) {
            self.pages.remove(index);
        }
    }

    /// The first page behind the place `last`, if that is given, and the page's place.
    pub(crate) fn first_after(&self, last: Option<u64>) -> Option<(u64, PageId)>
        ensures found { IfSome result (λ r. page_at self.now r.0 ≡ Some r.1) }
        ensures behind { IfSome result (λ r. is_behind last r.0 ≡ true) }
        ensures least { IfSome result (λ r. (place : ℕ) → is_behind last place ≡ true → is_some (page_at self.now place) ≡ true → r.0 ≤ place) }
        ensures none { IfNone result ((place : ℕ) → is_behind last place ≡ true → page_at self.now place ≡ None) }
    {
        let index = count_up_to(self.pages.as_slice(), last);
        if index >= self.pages.len() {
            return None;
        }
        Some(self.pages[index])
    }

    /// The pages, in the order of their places.
    pub(crate) fn list(&self) -> Result<Vec<PageId, A>, AllocError>
        ensures { IfOk result (λ list. list.items ≡ values_of self.now) }
    {
        let mut list = Vec::new(*self.pages.allocator());
        let pairs = self.pages.as_slice();
        'pairs: for pair in pairs {
            list.push(pair.1)?;
        }
        Ok(list)
    }

    /// Equal pages at equal places.
    pub(crate) fn copy(&self) -> Result<RisingPlaces<A>, AllocError>
        ensures { IfOk result (λ copy. copy ≡ self.now) }
    {
        let pages = Vec::from_slice(*self.pages.allocator(), self.pages.as_slice())?;
        Ok(RisingPlaces { pages })
    }
}

/// How many of the pages come before the place.
fn count_before(pages: &[(u64, PageId)], place: u64) -> usize
    requires { IsStrictlySortedBy nat_cmp (keys_of pages.now) }
    ensures count { result ≡ leading (λ e. nat_lt e.0 place) pages.now }
    ensures bound { result ≤ length pages.now }
{
    pages.partition_point(|row| row.0 < place)
}

/// Checks that a page is at the place, where this many come before it.
fn is_place_at(pages: &[(u64, PageId)], index: usize, place: u64) -> bool
    requires rising { IsStrictlySortedBy nat_cmp (keys_of pages.now) }
    requires before { index ≡ leading (λ e. nat_lt e.0 place) pages.now }
    ensures there { result ≡ is_some (page_at pages.now place) }
    ensures within { result ≡ true → index < length pages.now }
{
    index < pages.len() && pages[index].0 == place
}

/// How many of the pages are at the place `last` or before it; 0 where none is given.
fn count_up_to(pages: &[(u64, PageId)], last: Option<u64>) -> usize
    requires { IsStrictlySortedBy nat_cmp (keys_of pages.now) }
    ensures { result ≡ leading (λ e. not (is_behind last e.0)) pages.now }
{
    match last {
        None => 0,
        Some(place) => pages.partition_point(|row| row.0 <= place),
    }
}
