//! Pages in the order in which they joined, each with a value.
ghost use Rattle.std.specs.Prelude.{◌≡◌, ◌++◌, [], ◌∷◌, Some, drop, is_some, length, not, option_copied, IfOk, OnOk, OnErr};
ghost use Rattle.std.specs.List.{IsDistinct};
ghost use Rattle.std.specs.Map.{keys_of, lookup, remove_entry};
ghost use Rattle.indexmap.specs.IndexMap.{insert_entry};
ghost use Rattle.shm_place.specs.Page.{same_page};
ghost use Rattle.shm_parts.specs.OrderedPages.{first_page, moved_last, without, without_pages_of};

use crate::ordered_pages_iterator::PagesInOrder;
use crate::page_vector_helpers::{index, make_room, make_room_for, put_row, sweep};
use indexmap::IndexMap;
use shm_place::{PageId, SegId};
use std::alloc::{AllocError, Allocator, Global};
use std::hash::{BuildHasherDefault, FoldHasher};
use std::marker::Model;

/// So few empty places are never swept.
const FEW: usize = 32;

/// The first page is found behind fewer empty places than these.
const MANY: usize = 1024;

/// Pages in the order in which they joined, each with a value. A page joins at the end and leaves from any place, at a constant cost on
/// average: it has a place in a vector, and a map has the place. One that leaves leaves its place empty, until the empty places are swept.
/// So however many pages there are, it takes four blocks of memory, and so does a copy.
#[derive(Drop)]
pub struct OrderedPages<V: Drop, A: Allocator + Copy = Global> {
    rows: Vec<Option<(PageId, V)>, A>,
    places: IndexMap<PageId, usize, BuildHasherDefault<FoldHasher>, A>,
    /// No page that joined had a greater index in its segment.
    last: u32,
}

impl<V: Drop, A: Allocator + Copy> Model for OrderedPages<V, A> {
    ghost use Rattle.std.specs.Prelude.{List};
    ghost use Rattle.shm_place.specs.declared.page_id.PageId.{PageId as Page};
    ghost use Rattle.shm_parts.specs.OrderedPages.{IsIndexed, IsWithin, standing};

    ghost Value = { List (Page × V) };

    ghost view = { λ ordered. standing ordered.rows.items };

    ghost invariant = { λ ordered. IsIndexed ordered.places.entries ordered.rows.items × IsWithin ordered.last (standing ordered.rows.items) };
}

impl<V: Drop, A: Allocator + Copy> OrderedPages<V, A> {
    /// No pages.
    pub fn new(alloc: A) -> OrderedPages<V, A>
        ensures { result ≡ [] }
    {
        OrderedPages {
            rows: Vec::new(alloc),
            places: IndexMap::new(alloc),
            last: 0,
        }
    }

    /// How many pages there are.
    pub fn len(&self) -> usize
        ensures { result ≡ length self.now }
    {
        self.places.len()
    }

    /// How many pages there are, each once.
    pub fn count(&self) -> usize
        ensures count { result ≡ length self.now }
        ensures apart { IsDistinct same_page (keys_of self.now) }
    {
        self.places.len()
    }

    /// The page's value, if it has joined.
    pub fn get(&self, page: &PageId) -> Option<&V>
        ensures { option_copied result ≡ lookup (same_page page.now) self.now }
    {
        let place = self.places.get(page)?;
        match &self.rows[*place] {
            Some(row) => Some(&row.1),
            None => None,
        }
    }

    /// Gives the page this value: in its place if it has joined, or else at the end. Answers whether it joins. Where memory is refused
    /// nothing changes.
    pub fn put(&mut self, page: PageId, value: V) -> Result<bool, AllocError>
        ensures put { OnOk result (self.new ≡ insert_entry same_page self.old page value) }
        ensures joins { IfOk result (λ joins. joins ≡ not (is_some (lookup (same_page page) self.old))) }
        ensures refused { OnErr result (self.new ≡ self.old) }
    {
        let row = (page, value);
        self.last = self.last.max(page.index);
        make_room_for(&mut self.rows, &mut self.places, &page)?;
        put_row(&mut self.rows, &mut self.places, row)
    }

    /// Takes the page out. The others keep their order.
    pub fn remove(&mut self, page: &PageId)
        ensures first { self.new ≡ remove_entry (same_page page.now) self.old }
        ensures all { self.new ≡ without page.now self.old }
    {
        let Some(place) = self.places.swap_remove(page) else {
            return;
        };
        self.rows[place] = None;
        if self.rows.len() < FEW || self.rows.len() / 2 <= self.places.len() {
            return;
        }
        sweep(&mut self.rows, &mut self.places);
    }

    /// Moves the page to the end, if it has joined: soon where there is room for a page more.
    pub fn move_last(&mut self, page: &PageId)
        ensures order { self.new ≡ moved_last page.now self.old }
        ensures moved { (value : V) → lookup (same_page page.now) self.old ≡ Some value → self.new ≡ without page.now self.old ++ (page.now, value) ∷ [] }
    {
        let Some(place) = self.places.get_mut(page) else {
            return;
        };
        let row = self.rows[*place].take();
        if self.rows.len() < self.rows.capacity() {
            *place = self.rows.len();
            self.rows.push_reserved(row);
            return;
        }
        self.rows.retain(|row| row.is_some());
        self.rows.push_reserved(row);
        index(&self.rows, &mut self.places);
    }

    /// Makes room for a page more.
    pub fn reserve(&mut self) -> Result<(), AllocError>
        ensures { self.new ≡ self.old }
    {
        make_room(&mut self.rows, &mut self.places)
    }

    /// Takes the first page out.
    pub fn pop_first(&mut self) -> Option<PageId>
        ensures first { result ≡ first_page self.old }
        ensures rest { self.new ≡ drop 1 self.old }
    {
        self.sweep_many();
        let (page, _value) = self.iter().next()?;
        let page = *page;
        self.remove(&page);
        Some(page)
    }

    /// Gives the empty places up where there are many.
    fn sweep_many(&mut self)
        ensures { self.new ≡ self.old }
    {
        if self.rows.len() < self.places.len() + MANY {
            return;
        }
        sweep(&mut self.rows, &mut self.places);
    }

    /// Takes a segment's pages out, at a cost that grows with the greatest page index. The others keep their order.
    pub fn remove_segment(&mut self, id: SegId)
        ensures { self.new ≡ without_pages_of id self.old }
    {
        let last = self.last;
        'indexes: for index in 0..last {
            self.remove(&PageId { seg: id, index });
        }
        self.remove(&PageId {
            seg: id,
            index: last,
        });
    }

    /// The pages in their order, each with its value.
    pub fn iter(&self) -> PagesInOrder<'_, V>
        ensures { result ≡ self.now }
    {
        PagesInOrder {
            rest: self.rows.iter(),
        }
    }

    /// Equal pages and values in equal order.
    pub fn copy(&self) -> Result<OrderedPages<V, A>, AllocError>
    where
        V: Copy,
        ensures { IfOk result (λ copy. copy ≡ self.now) }
    {
        let rows = Vec::from_slice(*self.rows.allocator(), self.rows.as_slice())?;
        let places = self.places.clone()?;
        Ok(OrderedPages {
            rows,
            places,
            last: self.last,
        })
    }

    /// Takes all pages out.
    pub fn clear(&mut self)
        ensures { self.new ≡ [] }
    {
        *self = OrderedPages::new(*self.rows.allocator());
    }
}
