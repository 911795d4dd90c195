//! Changes that go over all books of a map.
ghost use Rattle.std.specs.Prelude.{◌≡◌, map as map_list, IfOk};
ghost use Rattle.shm_model.specs.Book as model;
ghost use Rattle.shm_parts.specs.Books.{viewed};

use crate::change_one_book::forget_volatile_in;
use crate::stored_entry_and_book::StoredBook;
use indexmap::IndexMap;
use shm_place::PageId;
use std::alloc::{AllocError, Allocator};
use std::hash::{BuildHasherDefault, FoldHasher};

/// Forgets what a restart of the manager loses of each book.
pub(crate) fn forget_all<A: Allocator + Copy>(
    books: &mut IndexMap<PageId, StoredBook<A>, BuildHasherDefault<FoldHasher>, A>,
)
    ensures { viewed books.new.entries ≡ map_list (λ e. (e.0, model.without_volatile e.1)) (viewed books.old.entries) }
{
    'books: for place in 0..books.len() {
        forget_volatile_in(&mut books[place]);
    }
}

/// Equal books in equal order.
pub(crate) fn copy_all<A: Allocator + Copy>(
    books: &IndexMap<PageId, StoredBook<A>, BuildHasherDefault<FoldHasher>, A>,
) -> Result<IndexMap<PageId, StoredBook<A>, BuildHasherDefault<FoldHasher>, A>, AllocError>
    ensures { IfOk result (λ copy. viewed copy.entries ≡ viewed books.now.entries) }
{
    let copy = books.clone()?;
    Ok(copy)
}
