//! Going over pages in the order in which they joined.
ghost use Rattle.std.specs.Prelude.{◌≡◌, length};
ghost use Rattle.std.specs.Iterator.{at_most};
ghost use Rattle.std.specs.Map.Iter.{TakesFirst, deref_pair};

use shm_place::PageId;
use std::marker::Model;
use std::slice::Iter;

/// The pages of an `OrderedPages` that are still to come, in the order in which they joined, each with its value. A step passes over the
/// empty places before its page.
#[derive(Drop)]
pub struct PagesInOrder<'a, V> {
    pub(crate) rest: Iter<'a, Option<(PageId, V)>>,
}

impl<'a, V> Model for PagesInOrder<'a, V> {
    ghost use Rattle.std.specs.Prelude.{List};
    ghost use Rattle.shm_place.specs.declared.page_id.PageId.{PageId as Page};
    ghost use Rattle.std.specs.Slice.Iter.{iter_rest};
    ghost use Rattle.shm_parts.specs.OrderedPages.{standing};

    ghost Value = { List (Page × V) };

    ghost view = { λ pages. standing (iter_rest pages.rest) };
}

impl<'a, V> Iterator for PagesInOrder<'a, V> {
    type Item = (&'a PageId, &'a V);

    ghost next_gives = { TakesFirst deref_pair };

    ghost remaining = { λ pages. at_most (length pages) };

    fn next(&mut self) -> Option<(&'a PageId, &'a V)> {
        'places: while let Some(place) = self.rest.next() {
            if let Some(row) = place {
                return Some((&row.0, &row.1));
            }
        }
        None
    }
}
