//! Books that are told notes from tables, each with the orders that the rules want: whole transactions, the limits on waiting and numbers,
//! and refused memory.
//!
//! Where a test may stop, a book is behind a reference: the proof writes out the drop of a book at each such place.
use shm_manager::{Book, Orders};
use shm_model::Kind;
use shm_number::UsedUp;
use shm_place::{SiteId, SiteSet};
use std::alloc::Allocator;
use std::process::Abort;

mod out_of_memory;
mod transactions;
mod waiting_requests;

/// What a site tells a book: that it asks under a number, gave its copy up, or has what it asked for. Or the book is to order again.
#[derive(Clone, Copy)]
enum Told {
    Ask(u64, Kind),
    Cleared(u64),
    Confirm(u64),
    Resend,
}

/// What the book orders: nothing, since it has no number left, since it ignores the note, or since all is ordered; that site 0, the owner,
/// hands the page or a copy to this site; or that these two sites give up their copies, or the one, where both are the same.
#[derive(Clone, Copy)]
enum Ordered {
    UsedUp,
    Ignored,
    Nothing,
    Hand(u32, Kind),
    Clear(u32, u32),
}

/// A note, from which site it is, and what the book orders.
type Step = (u32, Told, Ordered);

/// Site 1 asks for a copy, and site 0 is to lend it.
const LENT_TO_1: [Step; 1] = [(1, Told::Ask(1, Kind::Read), Ordered::Hand(1, Kind::Read))];

type Answer = Result<Option<Orders>, UsedUp>;

/// Tells the book the notes in turn. Stops the test at other orders.
fn run<A: Allocator + Copy>(rt: &impl Abort, book: &mut Book<A>, steps: &[Step]) {
    'steps: for (place, (site, told, ordered)) in steps.iter().enumerate() {
        let answer = tell(book, *site, *told);
        expect_answer(rt, place, answer, answer_of(*ordered));
    }
}

/// Stops the test where a note was answered otherwise.
fn expect_answer(rt: &impl Abort, place: usize, answer: Answer, expected: Answer) {
    assert_eq!(rt; answer, expected, "at note {place}");
}

fn tell<A: Allocator + Copy>(book: &mut Book<A>, site: u32, told: Told) -> Answer {
    if site >= 16 {
        return Err(UsedUp);
    }
    match told {
        Told::Ask(request, kind) => book.ask(SiteId(site), request, kind),
        Told::Cleared(number) => Ok(book.cleared(SiteId(site), number)),
        Told::Confirm(number) => Ok(book.confirm(SiteId(site), number)),
        Told::Resend => Ok(Some(book.resend())),
    }
}

fn answer_of(ordered: Ordered) -> Answer {
    match ordered {
        Ordered::UsedUp => Err(UsedUp),
        Ordered::Ignored => Ok(None),
        Ordered::Nothing => Ok(Some(Orders::Nothing)),
        Ordered::Hand(to, kind) => Ok(Some(Orders::Hand {
            owner: SiteId(0),
            requester: SiteId(to),
            kind,
        })),
        Ordered::Clear(one, other) => Ok(Some(Orders::Clear(pair(one, other)))),
    }
}

fn pair(one: u32, other: u32) -> SiteSet {
    let mut sites = SiteSet::empty();
    if one < 16 && other < 16 {
        sites.insert(SiteId(one));
        sites.insert(SiteId(other));
    }
    sites
}

/// A book's number, its owner and what runs.
type Seen = (u64, u32, Option<(Kind, SiteId)>);

/// Stops the test where the book shows something else.
fn expect_seen<A: Allocator + Copy>(rt: &impl Abort, book: &Book<A>, expected: Seen) {
    assert_eq!(rt; seen(book), expected);
}

fn seen<A: Allocator + Copy>(book: &Book<A>) -> Seen {
    (book.number(), book.owner().0, book.running())
}

/// Whether the site has a copy.
fn has_copy<A: Allocator + Copy>(book: &Book<A>, site: u32) -> bool {
    book.copies().contains(SiteId(site))
}
