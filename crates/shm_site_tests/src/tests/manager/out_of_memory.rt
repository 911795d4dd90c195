use super::{LENT_TO_1, Ordered, Told, answer_of, run, tell};
use crate::tests::expect;
use crate::tests::fill_heap::{Blocks, fill};
use linked_list_allocator::LocalHeap;
use shm_manager::Book;
use shm_model::Kind;
use shm_place::SiteId;
use std::test::Fail;

/// How often a hole is widened at most.
const TRIES: usize = 100;

#[test]
fn a_book_is_refused_until_there_is_room(rt: HostRuntime) -> Result<(), Fail> {
    let heap = LocalHeap::new(rt.alloc(), 1 << 12)?;
    let mut blocks = Vec::new(rt.alloc());
    expect(&rt, fill(&heap, &mut blocks).is_ok());
    expect(&rt, opened_after(&heap, &mut blocks) > Some(0));
    drop(blocks);
    Ok(())
}

/// How often a book is refused while the hole widens, and so is one after transactions. None: there was another book.
fn opened_after<'a>(heap: &'a LocalHeap, blocks: &mut Blocks<'a>) -> Option<usize> {
    'tries: for tries in 0..TRIES {
        if opened(heap) == Some((3, 0)) {
            return Some(tries);
        }
        if is_open_later(heap) {
            return None;
        }
        drop(blocks.pop());
    }
    None
}

/// Owner and number of a book, if there is memory for it.
fn opened(heap: &LocalHeap) -> Option<(u32, u64)> {
    match Book::new(heap, SiteId(3)) {
        Ok(book) => Some((book.owner().0, book.number())),
        Err(_) => None,
    }
}

/// Whether there is memory for a book after transactions.
fn is_open_later(heap: &LocalHeap) -> bool {
    Book::at(heap, SiteId(3), 7).is_ok()
}

#[test]
fn a_copy_is_refused_until_there_is_room(rt: HostRuntime) -> Result<(), Fail> {
    let heap = LocalHeap::new(rt.alloc(), 1 << 13)?;
    let mut book = Book::at(&heap, SiteId(0), 7)?;
    run(&rt, &mut book, &LENT_TO_1);
    let mut blocks = Vec::new(rt.alloc());
    expect(&rt, fill(&heap, &mut blocks).is_ok());
    expect(&rt, copied_after(&mut book, &mut blocks) > Some(0));
    drop(blocks);
    drop(book);
    Ok(())
}

/// How often a copy is refused while the hole widens. None: it doesn't go on alone.
fn copied_after<'a>(book: &mut Book<&'a LocalHeap>, blocks: &mut Blocks<'a>) -> Option<usize> {
    'tries: for tries in 0..TRIES {
        match is_copied(book) {
            Some(true) => return Some(tries),
            Some(false) => return None,
            None => drop(blocks.pop()),
        }
    }
    None
}

/// Whether book and copy go on alone, if there is memory for a copy.
fn is_copied<'a>(book: &mut Book<&'a LocalHeap>) -> Option<bool> {
    match book.copy() {
        Ok(copy) => Some(go_on_alone(&copy, book)),
        Err(_) => None,
    }
}

/// The book's transaction ends, and its copy's runs on.
fn go_on_alone<'a>(copy: &Book<&'a LocalHeap>, book: &mut Book<&'a LocalHeap>) -> bool {
    let numbers = (copy.number(), book.number());
    let ended = tell(book, 1, Told::Confirm(8)) == answer_of(Ordered::Nothing);
    let running = copy.running() == Some((Kind::Read, SiteId(1)));
    numbers == (8, 8) && ended && running
}
