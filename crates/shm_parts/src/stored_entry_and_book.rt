//! Entries and books as maps have them: a copy of such a map copies them.
ghost use Rattle.std.specs.Prelude.{◌≡◌};
ghost use Rattle.shm_manager.specs.Book.{book_of};

use shm_manager::Book;
use shm_page::Entry;
use std::alloc::{AllocError, Allocator};
use std::marker::Model;

/// An entry as a map of entries has it.
#[derive(Drop)]
pub(crate) struct StoredEntry<A: Allocator + Copy> {
    pub(crate) entry: Entry<A>,
}

impl<A: Allocator + Copy> Model for StoredEntry<A> {
    ghost use Rattle.shm_page.specs.declared.entry.Entry.{Entry};

    ghost Value = { Entry A };

    ghost view = { λ stored. stored.entry };
}

impl<A: Allocator + Copy> Clone for StoredEntry<A> {
    ghost is_clone = { λ old new. new ≡ old };

    fn clone(&self) -> Result<StoredEntry<A>, AllocError> {
        match self.entry.copy() {
            Ok(entry) => Ok(StoredEntry { entry }),
            Err(error) => Err(error),
        }
    }
}

/// A book as a map of books has it.
#[derive(Drop)]
pub(crate) struct StoredBook<A: Allocator + Copy> {
    pub(crate) book: Book<A>,
}

impl<A: Allocator + Copy> Model for StoredBook<A> {
    ghost use Rattle.shm_manager.specs.declared.book.Book.{Book};

    ghost Value = { Book A };

    ghost view = { λ stored. stored.book };
}

impl<A: Allocator + Copy> Clone for StoredBook<A> {
    ghost is_clone = { λ old new. book_of new ≡ book_of old };

    fn clone(&self) -> Result<StoredBook<A>, AllocError> {
        match self.book.copy() {
            Ok(book) => Ok(StoredBook { book }),
            Err(error) => Err(error),
        }
    }
}
