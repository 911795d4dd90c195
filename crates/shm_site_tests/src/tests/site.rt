//! Sites that are given inputs from tables, each with the answer that the rules want.
//!
//! Whoever holds a site or an outbox drops it by name: a drop at the end of its scope is written out there, and takes far longer to prove.
use super::expect;
use shm_model::{Access, Kind, Op, Reply, Request, Shown};
use shm_place::{PageId, SegId, SiteId, Sites};
use shm_site::{
    Answer, BookNote, EntryNote, Envelope, Input, Message, Note, Site, StepError, StepFault,
};
use std::alloc::{AllocError, Allocator};
use std::process::Abort;

mod calls;
mod cloned_sites;
mod foreign_envelopes;
mod out_of_memory;

/// A message without a page's bytes. A page of segment 0 stands as its index, a site or segment as its number.
#[derive(Clone, Copy)]
enum Told {
    Ask(u32, u64, Kind),
    Clear(u32, u64),
    Cleared(u32, u64),
    Hand(u32, u64, Kind, u32),
    Confirm(u32, u64),
    Call(u64, Op),
    Reply(u64, Reply),
    Purge(u32),
    Purged(u32),
}

/// One input of a site: an access through attachment 0, the beginning of a call, a message from one site to another, the last envelope
/// of the outbox, a tick, or a restart.
#[derive(Clone, Copy)]
enum Given {
    Load(u32),
    Store(u32, u8),
    Begin(Request),
    Told(u32, u32, Told),
    Last,
    Tick,
    Restart,
}

/// What a site sent, the first envelope first.
type Sent<A> = Vec<Envelope<A>, A>;

/// A step that wasn't made: why, and sender and receiver of the envelope that came back.
type Unmade = (StepFault, Option<(u32, u32)>);

/// A page of segment 0.
fn page(index: u32) -> PageId {
    PageId {
        seg: SegId(0),
        index,
    }
}

/// A single site at which nothing has happened.
fn new_site<A: Allocator + Copy>(alloc: A) -> Result<Site<A>, AllocError> {
    match Sites::new(1) {
        Ok(sites) => Ok(Site::new(alloc, sites, SiteId(0))),
        Err(_) => Err(AllocError),
    }
}

/// Site 1 of 2, where segment 0 has 4 pages and is attached, and one page may be held as a copy.
fn framed_site<A: Allocator + Copy>(alloc: A) -> Result<Site<A>, AllocError> {
    match Sites::new(2) {
        Ok(sites) => Site::framed(alloc, sites, SiteId(1), 4, 1),
        Err(_) => Err(AllocError),
    }
}

/// A site where segment 0 has 4 pages and is attached.
fn preset_site<A: Allocator + Copy>(alloc: A, count: u32, me: u32) -> Result<Site<A>, AllocError> {
    match Sites::new(count) {
        Ok(sites) if me < sites.count() => Site::preset(alloc, sites, SiteId(me), 4),
        _ => Err(AllocError),
    }
}

/// Stops the test where a step ended otherwise.
fn expect_answer(
    rt: &impl Abort,
    place: usize,
    made: Result<Answer, Unmade>,
    expected: Result<Answer, Unmade>,
) {
    assert_eq!(rt; made, expected, "at input {place}");
}

/// Gives the inputs in turn. Stops the test at another answer.
fn run<A: Allocator + Copy>(
    rt: &impl Abort,
    site: &mut Site<A>,
    outbox: &mut Sent<A>,
    inputs: &[(Given, Answer)],
) {
    'inputs: for (place, (given, answer)) in inputs.iter().enumerate() {
        let made = give(site, outbox, given);
        expect_answer(rt, place, made, Ok(*answer));
    }
}

/// Gives the inputs to a site that goes away thereafter.
fn run_at<A: Allocator + Copy>(
    rt: &impl Abort,
    made: Result<Site<A>, AllocError>,
    outbox: &mut Sent<A>,
    inputs: &[(Given, Answer)],
) {
    match made {
        Ok(mut site) => {
            run(rt, &mut site, outbox, inputs);
            drop(site);
        }
        Err(_) => expect(rt, false),
    }
}

/// Makes the step of this input.
fn give<A: Allocator + Copy>(
    site: &mut Site<A>,
    outbox: &mut Sent<A>,
    given: &Given,
) -> Result<Answer, Unmade> {
    let input = match given {
        Given::Load(offset) => Input::Load {
            at: 0,
            offset: *offset,
        },
        Given::Store(offset, byte) => Input::Store {
            at: 0,
            offset: *offset,
            byte: *byte,
        },
        Given::Begin(request) => Input::Begin(*request),
        Given::Told(from, to, told) => told_by(*from, *to, told),
        Given::Last => return carry(site, outbox),
        Given::Tick => Input::Tick,
        Given::Restart => Input::Restart,
    };
    end_of(site.step(input, outbox))
}

/// Hands the last envelope over; one that comes back is the last again. With no envelope it fails as no step does.
fn carry<A: Allocator + Copy>(site: &mut Site<A>, outbox: &mut Sent<A>) -> Result<Answer, Unmade> {
    let Some(envelope) = outbox.pop() else {
        return Err((StepFault::Foreign, None));
    };
    put_back(site.step(Input::Deliver(envelope), outbox), outbox)
}

fn put_back<A: Allocator + Copy>(
    made: Result<Answer, StepError<A>>,
    outbox: &mut Sent<A>,
) -> Result<Answer, Unmade> {
    match made {
        Ok(answer) => Ok(answer),
        Err(StepError { fault, envelope }) => {
            let back = ends(&envelope);
            if let Some(envelope) = envelope {
                let _ = outbox.push(envelope);
            }
            Err((fault, back))
        }
    }
}

fn told_by<A: Allocator + Copy>(from: u32, to: u32, told: &Told) -> Input<A> {
    Input::Deliver(Envelope {
        from: SiteId(from),
        to: SiteId(to),
        message: message_of(told),
    })
}

fn message_of<A: Allocator + Copy>(told: &Told) -> Message<A> {
    match *told {
        Told::Ask(index, request, kind) => to_book(index, BookNote::Ask { request, kind }),
        Told::Clear(index, number) => to_entry(index, EntryNote::Clear(number)),
        Told::Cleared(index, number) => to_book(index, BookNote::Cleared(number)),
        Told::Hand(index, number, kind, to) => to_entry(
            index,
            EntryNote::Hand {
                number,
                kind,
                to: SiteId(to),
            },
        ),
        Told::Confirm(index, number) => to_book(index, BookNote::Confirm(number)),
        Told::Call(number, op) => Message::Call { number, op },
        Told::Reply(number, reply) => Message::Reply { number, reply },
        Told::Purge(id) => Message::Purge { id: SegId(id) },
        Told::Purged(id) => Message::Purged { id: SegId(id) },
    }
}

/// A note to the book of a page of segment 0.
fn to_book<A: Allocator + Copy>(index: u32, told: BookNote) -> Message<A> {
    Message::Of {
        page: page(index),
        note: Note::ToBook(told),
    }
}

/// A note to an entry of a page of segment 0.
fn to_entry<A: Allocator + Copy>(index: u32, told: EntryNote<A>) -> Message<A> {
    Message::Of {
        page: page(index),
        note: Note::ToEntry(told),
    }
}

/// How the step ended.
fn end_of<A: Allocator + Copy>(made: Result<Answer, StepError<A>>) -> Result<Answer, Unmade> {
    match &made {
        Ok(answer) => Ok(*answer),
        Err(error) => Err((error.fault, ends(&error.envelope))),
    }
}

fn ends<A: Allocator + Copy>(envelope: &Option<Envelope<A>>) -> Option<(u32, u32)> {
    match envelope {
        Some(envelope) => Some((envelope.from.0, envelope.to.0)),
        None => None,
    }
}

/// What is seen of a site and its outbox: the first two pages and their books, and how many envelopes there are.
#[derive(Clone, Copy, PartialEq, Eq)]
struct Seen {
    access: [Option<Access>; 2],
    shown: [Option<Shown>; 2],
    books: [Option<BookNumbers>; 2],
    sent: usize,
}

/// A book's owner, its number, and what runs.
type BookNumbers = (SiteId, u64, Option<(Kind, SiteId)>);

fn look<A: Allocator + Copy>(site: &Site<A>, outbox: &Sent<A>) -> Seen {
    Seen {
        access: [access(site, 0), access(site, 1)],
        shown: [shown(site, 0), shown(site, 1)],
        books: [book_numbers(site, 0), book_numbers(site, 1)],
        sent: outbox.len(),
    }
}

fn access<A: Allocator + Copy>(site: &Site<A>, index: u32) -> Option<Access> {
    site.access(page(index))
}

fn shown<A: Allocator + Copy>(site: &Site<A>, index: u32) -> Option<Shown> {
    site.shown(page(index))
}

fn book_numbers<A: Allocator + Copy>(site: &Site<A>, index: u32) -> Option<BookNumbers> {
    let book = site.book(page(index))?;
    Some((book.owner, book.number, book.running))
}
