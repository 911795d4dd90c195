//! Pages at places of a vector, some of which are empty, and a map that has each page's place.
ghost use Rattle.std.specs.Prelude.{◌≡◌, ◌+◌, ◌<◌, ◌≤◌, not, true, None, is_some, vec_capacity, vec_len, IfOk, OnErr, OnOk};
ghost use Rattle.std.specs.Map.{lookup};
ghost use Rattle.indexmap.specs.IndexMap.{index_map_len, insert_entry, spare};
ghost use Rattle.shm_place.specs.Page.{same_page};
ghost use Rattle.shm_parts.specs.OrderedPages.{IsIndexed, is_apart, standing};

use crate::page_map_helpers::{place_or, put};
use indexmap::IndexMap;
use shm_place::PageId;
use std::alloc::{AllocError, Allocator};
use std::hash::{BuildHasherDefault, FoldHasher};

/// Gives the page its value: in its place if it has joined, or else behind the others, where there is room for it. Answers whether it
/// joins. Where memory is refused nothing changes.
pub(crate) fn put_row<V: Drop, A: Allocator + Copy>(
    rows: &mut Vec<Option<(PageId, V)>, A>,
    places: &mut IndexMap<PageId, usize, BuildHasherDefault<FoldHasher>, A>,
    row: (PageId, V),
) -> Result<bool, AllocError>
    requires room { lookup (same_page row.0) (standing rows.old.items) ≡ None → vec_len rows.old < vec_capacity rows.old }
    requires indexed { IsIndexed places.old.entries rows.old.items }
    ensures put { OnOk result (standing rows.new.items ≡ insert_entry same_page (standing rows.old.items) row.0 row.1) }
    ensures joins { IfOk result (λ joins. joins ≡ not (is_some (lookup (same_page row.0) (standing rows.old.items)))) }
    ensures refused { OnErr result (standing rows.new.items ≡ standing rows.old.items) }
    ensures indexed { IsIndexed places.new.entries rows.new.items }
{
    let end = rows.len();
    let place = place_or(places, row.0, end)?;
    if place < end {
        rows[place] = Some(row);
        return Ok(false);
    }
    rows.push_reserved(Some(row));
    Ok(true)
}

/// Makes room for the page, unless it has joined.
pub(crate) fn make_room_for<V: Drop, A: Allocator + Copy>(
    rows: &mut Vec<Option<(PageId, V)>, A>,
    places: &mut IndexMap<PageId, usize, BuildHasherDefault<FoldHasher>, A>,
    page: &PageId,
) -> Result<(), AllocError>
    requires { IsIndexed places.old.entries rows.old.items }
    ensures room { OnOk result (lookup (same_page page.now) (standing rows.new.items) ≡ None → vec_len rows.new < vec_capacity rows.new) }
    ensures same { standing rows.new.items ≡ standing rows.old.items }
    ensures indexed { IsIndexed places.new.entries rows.new.items }
{
    if rows.len() < rows.capacity() || places.contains_key(page) {
        return Ok(());
    }
    make_room(rows, places)
}

/// Makes room for a page more: where more places are empty than not, by giving those up.
pub(crate) fn make_room<V: Drop, A: Allocator + Copy>(
    rows: &mut Vec<Option<(PageId, V)>, A>,
    places: &mut IndexMap<PageId, usize, BuildHasherDefault<FoldHasher>, A>,
) -> Result<(), AllocError>
    requires { IsIndexed places.old.entries rows.old.items }
    ensures room { OnOk result (vec_len rows.new < vec_capacity rows.new) }
    ensures room_in_map { OnOk result (0 < spare places.new) }
    ensures same { standing rows.new.items ≡ standing rows.old.items }
    ensures indexed { IsIndexed places.new.entries rows.new.items }
{
    if rows.len() < rows.capacity() || rows.len() / 2 <= places.len() {
        return grow(rows, places);
    }
    sweep(rows, places);
    grow(rows, places)
}

/// Makes room for a page more.
fn grow<V: Drop, A: Allocator + Copy>(
    rows: &mut Vec<Option<(PageId, V)>, A>,
    places: &mut IndexMap<PageId, usize, BuildHasherDefault<FoldHasher>, A>,
) -> Result<(), AllocError>
    ensures room { OnOk result (vec_len rows.new < vec_capacity rows.new) }
    ensures room_in_map { OnOk result (0 < spare places.new) }
    ensures rows { rows.new.items ≡ rows.old.items }
    ensures places { places.new.entries ≡ places.old.entries }
{
    places.reserve(1)?;
    rows.reserve(1)
}

/// Gives the empty places up.
pub(crate) fn sweep<V: Drop, A: Allocator + Copy>(
    rows: &mut Vec<Option<(PageId, V)>, A>,
    places: &mut IndexMap<PageId, usize, BuildHasherDefault<FoldHasher>, A>,
)
    requires { IsIndexed places.old.entries rows.old.items }
    ensures same { standing rows.new.items ≡ standing rows.old.items }
    ensures indexed { IsIndexed places.new.entries rows.new.items }
{
    rows.retain(|row| row.is_some());
    index(rows, places);
}

/// Finds each page's place anew. There is room for them.
pub(crate) fn index<V: Drop, A: Allocator + Copy>(
    rows: &Vec<Option<(PageId, V)>, A>,
    places: &mut IndexMap<PageId, usize, BuildHasherDefault<FoldHasher>, A>,
)
    requires apart { is_apart rows.now.items ≡ true }
    requires room { vec_len rows.now ≤ index_map_len places.old + spare places.old }
    ensures { IsIndexed places.new.entries rows.now.items }
{
    places.clear();
    'rows: for place in 0..rows.len() {
        match &rows[place] {
            Some(row) => put(places, row.0, place),
            None => {}
        }
    }
}
