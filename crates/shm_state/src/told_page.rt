//! Entries and books, made of what was told of them.
ghost use Rattle.std.specs.Prelude.{◌≡◌, true, IfOk};
ghost use Rattle.shm_page.specs.Entry.{entry_of};
ghost use Rattle.shm_manager.specs.Book.{book_of};
ghost use Rattle.shm_state.specs.PartOf.{book_in, entry_in};
ghost use Rattle.shm_state.specs.Told.{is_filled, whole_book};

use crate::part::{BookPart, EntryPart};
use shm_manager::Book;
use shm_number::Served;
use shm_page::{Entry, NilPage};
use shm_place::PAGE_BYTES;
use std::alloc::{AllocError, Allocator};

/// Checks that there are as many bytes as a page has, if there are any.
pub(crate) fn is_filled<A: Allocator + Copy>(entry: &EntryPart<A>) -> bool
    ensures { result ≡ is_filled (entry_in entry.now) }
{
    match entry {
        EntryPart::Gone { .. } => true,
        EntryPart::Copy { bytes, .. } => bytes.len() == PAGE_BYTES,
        EntryPart::OwnRead { bytes, .. } => bytes.len() == PAGE_BYTES,
        EntryPart::OwnWrite { bytes, .. } => bytes.len() == PAGE_BYTES,
        EntryPart::Handed { bytes, .. } => bytes.len() == PAGE_BYTES,
    }
}

/// The entry of which this was told.
pub(crate) fn restored<A: Allocator + Copy>(
    alloc: A,
    entry: &EntryPart<A>,
) -> Result<Entry<A>, AllocError>
    requires { is_filled (entry_in entry.now) ≡ true }
    ensures { IfOk result (λ made. entry_of made ≡ entry_in entry.now) }
{
    match entry {
        EntryPart::Gone { number } => Ok(Entry::Nil(NilPage::after(*number))),
        EntryPart::Copy { number, bytes } => {
            Entry::restored_copy(alloc, *number, bytes.as_slice())
        }
        EntryPart::OwnRead { number, bytes } => {
            Entry::restored_own_read(alloc, *number, bytes.as_slice())
        }
        EntryPart::OwnWrite { number, bytes } => {
            Entry::restored_own_write(alloc, *number, bytes.as_slice())
        }
        EntryPart::Handed { number, to, bytes } => {
            Entry::restored_handed(alloc, *number, *to, bytes.as_slice())
        }
    }
}

/// The book of which this was told: nobody has answered a Clear, and nobody waits.
pub(crate) fn restored_book<A: Allocator + Copy>(
    alloc: A,
    book: BookPart,
) -> Result<Book<A>, AllocError>
    ensures { IfOk result (λ made. book_of made ≡ whole_book (book_in book)) }
{
    let served = Served::restored(book.served);
    Book::restored(
        alloc,
        book.owner,
        book.copies,
        book.number,
        book.running,
        served,
    )
}
