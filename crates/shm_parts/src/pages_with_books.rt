//! The pages that have books, in order, and which of them are marked.
ghost use Rattle.std.specs.Prelude.{◌≡◌, ◌<◌, ℕ, true, false, not, ◌&&◌, if◌then◌else◌, [], ◌∷◌, ◌++◌, IfNone, IfOk, IfSome, OnErr, OnOk};
ghost use Rattle.std.proofs.Props.{props};
ghost use Rattle.shm_parts.specs.Places.{IsPlaced, in_order};
ghost use Rattle.shm_place.specs.declared.page_id.PageId.{PageId as Page};
ghost use Rattle.shm_place.specs.Limits.{pages};
ghost use Rattle.shm_place.specs.Page.{same_page};
ghost use Rattle.shm_model.specs.Transfer.{without_page};

use crate::page_map_helpers::put;
use crate::pages_by_place::RisingPlaces;
use indexmap::IndexMap;
use shm_place::PageId;
use std::alloc::{AllocError, Allocator, Global};
use std::hash::{BuildHasherDefault, FoldHasher};

/// The pages that have books, in the order of their first transactions, and a mark at each page whose book may have a running
/// transaction: a tick goes over the marked ones alone, and a purge looks up its own pages alone. Each page has a place, a number that
/// is greater than those of all pages before it.
#[derive(Drop)]
pub struct Bookings<A: Allocator + Copy = Global> {
    pub(crate) places: IndexMap<PageId, u64, BuildHasherDefault<FoldHasher>, A>,
    pub(crate) marked: RisingPlaces<A>,
    pub(crate) next: u64,
    ghost placed: { IsPlaced places.entries (in_order places.entries) marked next } by { Prim.hlevel props },
}

impl<A: Allocator + Copy> Bookings<A> {
    ghost use Rattle.shm_parts.specs.Bookings.{is_listed, is_marked, listed_after, listed_of, IsNext, NoneMarked};

    /// No page.
    pub(crate) fn new(alloc: A) -> Bookings<A>
        ensures listed { listed_of result ≡ [] }
        ensures none { is_listed result ≡ (λ _. false) }
    {
        Bookings {
            places: IndexMap::new(alloc),
            marked: RisingPlaces::new(alloc),
            next: 0,
        }
    }

    /// Adds a page as the last one, and marks it. An error: memory is refused, or 2^64 - 1 pages were added.
    pub(crate) fn add(&mut self, page: &PageId) -> Result<(), AllocError>
        requires fresh { is_listed self.old page.now ≡ false }
        requires index { page.now.index < pages }
        ensures listed { OnOk result (listed_of self.new ≡ listed_of self.old ++ page.now ∷ []) }
        ensures there { OnOk result ((other : Page) → is_listed self.new other ≡ (if same_page page.now other then true else is_listed self.old other)) }
        ensures marked { OnOk result (is_marked self.new page.now ≡ true) }
        ensures others { (other : Page) → is_marked self.old other ≡ true → is_marked self.new other ≡ true }
        ensures refused { OnErr result ((listed_of self.new ≡ listed_of self.old) × (is_listed self.new ≡ is_listed self.old)) }
    {
        let place = self.next;
        let Some(next) = place.checked_add(1) else {
            return Err(AllocError);
        };
        self.places.reserve(1)?;
        self.marked.put_at(place, *page)?;
        put(&mut self.places, *page, place);
        self.next = next;
        Ok(())
    }

    /// Marks the page.
    pub(crate) fn mark(&mut self, page: &PageId) -> Result<(), AllocError>
        ensures listed { listed_of self.new ≡ listed_of self.old }
        ensures there { is_listed self.new ≡ is_listed self.old }
        ensures marked { OnOk result (is_listed self.old page.now ≡ true → is_marked self.new page.now ≡ true) }
        ensures unmarked { OnErr result (is_marked self.old page.now ≡ false) }
        ensures others { (other : Page) → is_marked self.old other ≡ true → is_marked self.new other ≡ true }
    {
        let Some(place) = self.places.get(page) else {
            return Ok(());
        };
        self.marked.put_at(*place, *page)
    }

    /// Takes the page's mark away, unless its book's transaction runs.
    pub(crate) fn settle(&mut self, page: &PageId, runs: bool)
        ensures listed { listed_of self.new ≡ listed_of self.old }
        ensures there { is_listed self.new ≡ is_listed self.old }
        ensures others { (other : Page) → (same_page page.now other && not runs) ≡ false → is_marked self.old other ≡ true → is_marked self.new other ≡ true }
    {
        if runs {
            return;
        }
        let Some(place) = self.places.get(page) else {
            return;
        };
        self.marked.remove(*place);
    }

    /// Takes the page out. The others keep their order.
    pub(crate) fn remove(&mut self, page: &PageId)
        ensures listed { listed_of self.new ≡ without_page page.now (listed_of self.old) }
        ensures there { (other : Page) → is_listed self.new other ≡ (if same_page page.now other then false else is_listed self.old other) }
        ensures others { (other : Page) → same_page page.now other ≡ false → is_marked self.old other ≡ true → is_marked self.new other ≡ true }
    {
        let Some(place) = self.places.swap_remove(page) else {
            return;
        };
        self.marked.remove(place);
    }

    /// The next page that is marked, and its place. `last`: the place that it is to come behind, if any.
    pub(crate) fn next_marked(&self, last: Option<u64>) -> Option<(u64, PageId)>
        ensures next { IfSome result (IsNext last self.now) }
        ensures rest { IfNone result (NoneMarked self.now (listed_after last self.now)) }
        ensures there { IfSome result (λ r. is_listed self.now r.1 ≡ true) }
    {
        self.marked.first_after(last)
    }

    /// The pages, in their order.
    pub(crate) fn list(&self) -> Result<Vec<PageId, A>, AllocError>
        ensures { IfOk result (λ list. list.items ≡ listed_of self.now) }
    {
        let rising = self.by_place()?;
        rising.list()
    }

    /// The pages at their places.
    fn by_place(&self) -> Result<RisingPlaces<A>, AllocError>
        ensures { IfOk result (λ rising. rising ≡ in_order self.now.places.entries) }
    {
        let mut rising = RisingPlaces::new(*self.places.allocator());
        let count = self.places.len();
        'places: for index in 0..count {
            let Some((page, place)) = self.places.get_index(index) else {
                unreachable!()
            };
            rising.put_at(*place, *page)?;
        }
        Ok(rising)
    }

    /// Equal pages in equal order, with equal marks.
    pub(crate) fn copy(&self) -> Result<Bookings<A>, AllocError>
        ensures listed { IfOk result (λ copy. listed_of copy ≡ listed_of self.now) }
        ensures there { IfOk result (λ copy. is_listed copy ≡ is_listed self.now) }
        ensures marked { IfOk result (λ copy. (page : Page) → is_marked self.now page ≡ true → is_marked copy page ≡ true) }
    {
        let places = self.places.clone()?;
        let marked = self.marked.copy()?;
        Ok(Bookings {
            places,
            marked,
            next: self.next,
        })
    }
}
