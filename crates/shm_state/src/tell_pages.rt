//! Tells what a site has of pages: the segments that it purged, its entries, its attachments and its books.
ghost use Rattle.std.specs.Prelude.{◌≡◌, ◌++◌, [], ◌∷◌, if◌then◌else◌, map, None, option_map, IfOk, OnOk};
ghost use Rattle.shm_page.specs.Entry.{entry_of};
ghost use Rattle.shm_manager.specs.Book.{book_of};
ghost use Rattle.shm_model.specs.Book.{untouched_book, without_volatile};
ghost use Rattle.shm_attach.specs.Attachments.{attachment_from, attachments_of};
ghost use Rattle.shm_parts.specs.Books.{books_of};
ghost use Rattle.shm_parts.specs.Listed.{booked_list, kept_book, purged_list, stored_list};
ghost use Rattle.shm_parts.specs.Purged.{purged_of};
ghost use Rattle.shm_state.specs.PartOf.{book_in, entry_in};
ghost use Rattle.shm_state.specs.Telling.{AreOrdered, alive, put_below, put_if, said_by};
ghost use Rattle.shm_state.specs.Told.{whole_book};
ghost use Rattle.shm_state.specs.declared.told_stage.Stage.TheVariants as stage;

use crate::part::{BookPart, EntryPart, Part};
use crate::tell_part::tell_next;
use shm_attach::Attachments;
use shm_manager::Book;
use shm_number::Served;
use shm_page::Entry;
use shm_parts::{Books, Holdings, Purged};
use shm_place::{PageId, SegId, SiteId, SiteSet};
use std::alloc::{AllocError, Allocator};

pub(crate) fn tell_purged<A: Allocator + Copy>(
    purged: &Purged<A>,
    out: &mut Vec<Part<A>, A>,
) -> Result<(), AllocError>
    requires order { AreOrdered stage.Purged out.old.items }
    ensures said { OnOk result (said_by out.new.items ≡ record (said_by out.old.items) { purged = (said_by out.old.items).purged ++ purged_list purged.now }) }
    ensures order { OnOk result (AreOrdered stage.Purged out.new.items) }
{
    'places: for place in 0..purged.count() {
        let Some(id) = purged.at_place(place) else {
            unreachable!()
        };
        tell_next(out, Part::Purged(id))?;
    }
    Ok(())
}

/// Tells the entries but those of purged segments, of which nothing is left.
pub(crate) fn tell_entries<A: Allocator + Copy>(
    alloc: A,
    held: &Holdings<A>,
    out: &mut Vec<Part<A>, A>,
) -> Result<(), AllocError>
    requires order { AreOrdered stage.Entries out.old.items }
    ensures said { OnOk result (said_by out.new.items
        ≡ record (said_by out.old.items) { entries = (said_by out.old.items).entries ++ alive (purged_of held.now.purged) (stored_list held.now.entries) }) }
    ensures order { OnOk result (AreOrdered stage.Entries out.new.items) }
{
    let entries = held.entries();
    let purged = held.purged();
    'places: for place in 0..entries.count() {
        let Some((page, entry)) = entries.at_place(place) else {
            unreachable!()
        };
        tell_entry(alloc, purged.contains(page.seg), page, entry, out)?;
    }
    Ok(())
}

fn tell_entry<A: Allocator + Copy>(
    alloc: A,
    purged: bool,
    page: PageId,
    entry: &Entry<A>,
    out: &mut Vec<Part<A>, A>,
) -> Result<(), AllocError>
    requires order { AreOrdered stage.Entries out.old.items }
    ensures said { OnOk result (said_by out.new.items
        ≡ record (said_by out.old.items) { entries = (said_by out.old.items).entries ++ (if purged then [] else (page, entry_of entry.now) ∷ []) }) }
    ensures order { OnOk result (AreOrdered stage.Entries out.new.items) }
{
    if purged {
        return Ok(());
    }
    let entry = entry_part(alloc, entry)?;
    tell_next(out, Part::Entry { page, entry })
}

/// What is told of an entry.
fn entry_part<A: Allocator + Copy>(alloc: A, entry: &Entry<A>) -> Result<EntryPart<A>, AllocError>
    ensures { IfOk result (λ part. entry_in part ≡ entry_of entry.now) }
{
    match entry {
        Entry::Nil(page) => Ok(EntryPart::Gone {
            number: page.seen(),
        }),
        Entry::Copy(page) => {
            let bytes = page.bytes(alloc)?;
            Ok(EntryPart::Copy {
                number: page.seen(),
                bytes,
            })
        }
        Entry::OwnRead(page) => {
            let bytes = page.bytes(alloc)?;
            Ok(EntryPart::OwnRead {
                number: page.seen(),
                bytes,
            })
        }
        Entry::OwnWrite(page) => {
            let bytes = page.bytes(alloc)?;
            Ok(EntryPart::OwnWrite {
                number: page.seen(),
                bytes,
            })
        }
        Entry::Handed(page) => {
            let bytes = page.bytes(alloc)?;
            Ok(EntryPart::Handed {
                number: page.seen(),
                to: page.to(),
                bytes,
            })
        }
    }
}

pub(crate) fn tell_attachments<A: Allocator + Copy>(
    attachments: &Attachments,
    out: &mut Vec<Part<A>, A>,
) -> Result<(), AllocError>
    requires order { AreOrdered stage.Attachments out.old.items }
    requires fresh { (said_by out.old.items).attachments ≡ [] }
    ensures said { OnOk result (said_by out.new.items ≡ record (said_by out.old.items) { attachments = put_below 64 attachments.now (said_by out.old.items).attachments }) }
    ensures order { OnOk result (AreOrdered stage.Attachments out.new.items) }
{
    'numbers: for number in 0..64 {
        tell_attachment(number, attachments.get(number), out)?;
    }
    Ok(())
}

fn tell_attachment<A: Allocator + Copy>(
    number: u32,
    attached: Option<(SegId, (u32, bool))>,
    out: &mut Vec<Part<A>, A>,
) -> Result<(), AllocError>
    requires order { AreOrdered stage.Attachments out.old.items }
    requires free { attachments_of (said_by out.old.items).attachments number ≡ None }
    ensures said { OnOk result (said_by out.new.items
        ≡ record (said_by out.old.items) { attachments = put_if number (option_map attachment_from attached) (said_by out.old.items).attachments }) }
    ensures order { OnOk result (AreOrdered stage.Attachments out.new.items) }
{
    match attached {
        None => Ok(()),
        Some((id, (size, ro))) => tell_next(
            out,
            Part::Attachment {
                number,
                id,
                size,
                ro,
            },
        ),
    }
}

pub(crate) fn tell_books<A: Allocator + Copy>(
    books: &Books<A>,
    me: SiteId,
    out: &mut Vec<Part<A>, A>,
) -> Result<(), AllocError>
    requires order { AreOrdered stage.Books out.old.items }
    ensures said { OnOk result (said_by out.new.items ≡ record (said_by out.old.items) { books = (said_by out.old.items).books ++ booked_list me books.now }) }
    ensures order { OnOk result (AreOrdered stage.Books out.new.items) }
{
    let pages = books.list()?;
    tell_books_of(books, me, pages.as_slice(), out)
}

fn tell_books_of<A: Allocator + Copy>(
    books: &Books<A>,
    me: SiteId,
    pages: &[PageId],
    out: &mut Vec<Part<A>, A>,
) -> Result<(), AllocError>
    requires order { AreOrdered stage.Books out.old.items }
    ensures said { OnOk result (said_by out.new.items ≡ record (said_by out.old.items) { books = (said_by out.old.items).books ++ map (kept_book me books.now) pages.now }) }
    ensures order { OnOk result (AreOrdered stage.Books out.new.items) }
{
    'pages: for page in pages {
        let book = book_or_first(books, me, *page);
        tell_next(out, Part::Book { page: *page, book })?;
    }
    Ok(())
}

/// What is told of the page's book, or of an untouched one.
fn book_or_first<A: Allocator + Copy>(books: &Books<A>, me: SiteId, page: PageId) -> BookPart
    ensures { whole_book (book_in result) ≡ without_volatile (books_of me books.now page) }
{
    match books.get(page) {
        None => first_book(me),
        Some(book) => book_part(book),
    }
}

/// What is told of a book that no request reached.
fn first_book(me: SiteId) -> BookPart
    ensures { whole_book (book_in result) ≡ untouched_book me }
{
    BookPart {
        owner: me,
        copies: SiteSet::empty(),
        number: 0,
        running: None,
        served: Served::new().numbers(),
    }
}

/// What is told of a book.
fn book_part<A: Allocator + Copy>(book: &Book<A>) -> BookPart
    ensures { whole_book (book_in result) ≡ without_volatile (book_of book.now) }
{
    BookPart {
        owner: book.owner(),
        copies: book.copies(),
        number: book.number(),
        running: book.running(),
        served: book.served().numbers(),
    }
}
