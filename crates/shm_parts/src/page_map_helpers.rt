//! Maps from pages.
ghost use Rattle.std.specs.Prelude.{◌≡◌, ◌+◌, ◌<◌, ◌≤◌, true, false, cond, None, Some, unwrap_or, IfOk, OnErr};
ghost use Rattle.std.specs.Map.{lookup};
ghost use Rattle.indexmap.specs.IndexMap.{insert_entry, spare};
ghost use Rattle.shm_place.specs.declared.page_id.PageId.{PageId as Page};
ghost use Rattle.shm_place.specs.Page.{same_page};
ghost use Rattle.shm_parts.specs.Ends.{is_past};

use indexmap::IndexMap;
use shm_place::{PAGES, PageId, SegId};
use std::alloc::{AllocError, Allocator};
use std::hash::{BuildHasherDefault, FoldHasher};

/// A look at each page of so large a map is a longer way than a look-up of each page that a segment may have.
const LARGE: usize = 16 * PAGES as usize;

/// Puts a value at a page, for which there is room.
pub(crate) fn put<V: Drop, A: Allocator + Copy>(
    map: &mut IndexMap<PageId, V, BuildHasherDefault<FoldHasher>, A>,
    page: PageId,
    value: V,
)
    requires { 0 < spare map.old }
    ensures entries { map.new.entries ≡ insert_entry same_page map.old.entries page value }
    ensures values { (other : Page) → lookup (same_page other) map.new.entries
        ≡ cond (same_page page other) (Some value) (lookup (same_page other) map.old.entries) }
    ensures room { spare map.old ≤ spare map.new + 1 }
{
    let Ok(_) = map.insert(page, value) else {
        unreachable!()
    };
}

/// The page's place, or this one from now on where it has none. Where memory is refused nothing changes.
pub(crate) fn place_or<A: Allocator + Copy>(
    places: &mut IndexMap<PageId, usize, BuildHasherDefault<FoldHasher>, A>,
    page: PageId,
    place: usize,
) -> Result<usize, AllocError>
    ensures place { IfOk result (λ found. found ≡ unwrap_or (lookup (same_page page) places.old.entries) place) }
    ensures entries { IfOk result (λ found. places.new.entries ≡ insert_entry same_page places.old.entries page found) }
    ensures values { IfOk result (λ found. (other : Page) → lookup (same_page other) places.new.entries
        ≡ cond (same_page page other) (Some found) (lookup (same_page other) places.old.entries)) }
    ensures refused { OnErr result (places.new.entries ≡ places.old.entries) }
{
    Ok(*places.entry(page)?.or_insert(place))
}

/// The index behind the last of the segment's pages that the map has, or 0; `PAGES` where the map is so large that a look at each of its
/// pages is the longer way than a look-up of each that the segment may have.
pub(crate) fn end_of<V: Drop, A: Allocator>(
    map: &IndexMap<PageId, V, BuildHasherDefault<FoldHasher>, A>,
    id: SegId,
) -> u32
    ensures { (page : Page) → is_past id result page ≡ true → lookup (same_page page) map.now.entries ≡ None }
{
    let count = map.len();
    if count >= LARGE {
        return PAGES;
    }
    let mut end = 0;
    'places: for place in 0..count {
        let Some((page, _)) = map.get_index(place) else {
            unreachable!()
        };
        end = end_with(end, id, *page);
    }
    end
}

/// The end, moved behind this page if it is one of the segment's and past the end.
fn end_with(end: u32, id: SegId, page: PageId) -> u32
    ensures more { (other : Page) → is_past id end other ≡ false → is_past id result other ≡ false }
    ensures page { is_past id result page ≡ false }
{
    if page.seg == id && end <= page.index && page.index < PAGES {
        page.index + 1
    } else {
        end
    }
}
