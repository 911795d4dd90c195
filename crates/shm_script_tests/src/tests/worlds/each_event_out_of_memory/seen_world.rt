//! All that can be seen of a world: its sites, its books, and the envelopes that are on their way.
use shm_model::{Kind, Op, Reply};
use shm_parts::{BookNote, EntryNote, Envelope, Message, Note};
use shm_place::{MAX_SITES, PageId, SegId, SiteId};
use shm_world::{Access, BookView, Shown, World};
use std::alloc::{AllocError, Allocator, Global};

/// The pages that are looked at, by their segments and indexes.
const PAGES: [(u32, u32); 5] = [(0, 0), (0, 1), (1, 0), (2, 0), (3, 0)];

#[derive(Debug, PartialEq, Eq, Drop)]
pub(super) struct Seen {
    sent: u64,
    pages: Vec<SeenPage>,
    envelopes: Vec<Option<SeenEnvelope>>,
}

/// A page's book, and what each site shows of the page.
#[derive(Debug, PartialEq, Eq, Drop)]
struct SeenPage {
    book: Option<SeenBook>,
    sites: Vec<(Option<Access>, Option<Shown>)>,
}

/// What a book shows. `copies` has a bit for each site.
#[derive(Clone, Copy, Debug, PartialEq, Eq)]
struct SeenBook {
    owner: SiteId,
    copies: u32,
    number: u64,
    running: Option<(Kind, SiteId)>,
}

#[derive(Clone, Copy, Debug, PartialEq, Eq)]
struct SeenEnvelope {
    from: SiteId,
    to: SiteId,
    message: SeenMessage,
}

/// A message. Of a page's bytes there is a sum.
#[derive(Clone, Copy, Debug, PartialEq, Eq)]
enum SeenMessage {
    Ask(PageId, u64, Kind),
    Clear(PageId, u64),
    Cleared(PageId, u64),
    Hand(PageId, u64, Kind, SiteId),
    Page(PageId, u64, Kind, u64),
    Confirm(PageId, u64),
    Call(u64, Op),
    Reply(u64, Reply),
    Purge(SegId),
    Purged(SegId),
}

pub(super) fn look<A: Allocator + Copy>(
    alloc: Global,
    world: &World<A>,
) -> Result<Seen, AllocError> {
    let mut pages = Vec::new(alloc);
    'pages: for (segment, index) in PAGES {
        let page = look_at(alloc, world, segment, index)?;
        pages.push(page)?;
    }
    let envelopes = on_their_way(alloc, world)?;
    Ok(Seen {
        sent: world.sent(),
        pages,
        envelopes,
    })
}

fn look_at<A: Allocator + Copy>(
    alloc: Global,
    world: &World<A>,
    segment: u32,
    index: u32,
) -> Result<SeenPage, AllocError> {
    let seg = SegId(segment);
    let page = &PageId { seg, index };
    let mut sites = Vec::new(alloc);
    'sites: for site in 0..world.sites().count() {
        let access = world.access(SiteId(site), *page);
        let shown = world.shown(SiteId(site), *page);
        sites.push((access, shown))?;
    }
    let book = world.book(*page).map(|view| book_of(&view));
    Ok(SeenPage { book, sites })
}

fn book_of(view: &BookView) -> SeenBook {
    let mut copies = 0;
    'sites: for site in 0..MAX_SITES {
        copies = 2u32.wrapping_mul(copies) | u32::from(view.copies.contains(SiteId(site)));
    }
    SeenBook {
        owner: view.owner,
        copies,
        number: view.number,
        running: view.running,
    }
}

fn on_their_way<A: Allocator + Copy>(
    alloc: Global,
    world: &World<A>,
) -> Result<Vec<Option<SeenEnvelope>>, AllocError> {
    let mut envelopes = Vec::new(alloc);
    'numbers: for number in 0..world.sent() {
        let envelope = world.envelope(number).map(|envelope| envelope_of(envelope));
        envelopes.push(envelope)?;
    }
    Ok(envelopes)
}

fn envelope_of<A: Allocator + Copy>(envelope: &Envelope<A>) -> SeenEnvelope {
    SeenEnvelope {
        from: envelope.from,
        to: envelope.to,
        message: message_of(&envelope.message),
    }
}

fn message_of<A: Allocator + Copy>(message: &Message<A>) -> SeenMessage {
    match message {
        Message::Of { page, note } => note_of(*page, note),
        &Message::Call { number, op } => SeenMessage::Call(number, op),
        &Message::Reply { number, reply } => SeenMessage::Reply(number, reply),
        &Message::Purge { id } => SeenMessage::Purge(id),
        &Message::Purged { id } => SeenMessage::Purged(id),
    }
}

fn note_of<A: Allocator + Copy>(page: PageId, note: &Note<A>) -> SeenMessage {
    match note {
        &Note::ToBook(told) => book_note_of(page, told),
        Note::ToEntry(told) => entry_note_of(page, told),
    }
}

fn book_note_of(page: PageId, told: BookNote) -> SeenMessage {
    match told {
        BookNote::Ask { request, kind } => SeenMessage::Ask(page, request, kind),
        BookNote::Cleared(number) => SeenMessage::Cleared(page, number),
        BookNote::Confirm(number) => SeenMessage::Confirm(page, number),
    }
}

fn entry_note_of<A: Allocator + Copy>(page: PageId, told: &EntryNote<A>) -> SeenMessage {
    match told {
        &EntryNote::Clear(number) => SeenMessage::Clear(page, number),
        &EntryNote::Hand { number, kind, to } => SeenMessage::Hand(page, number, kind, to),
        EntryNote::Read(grant) => {
            SeenMessage::Page(page, grant.number(), Kind::Read, sum(grant.bytes()))
        }
        EntryNote::Write(grant) => {
            SeenMessage::Page(page, grant.number(), Kind::Write, sum(grant.bytes()))
        }
    }
}

/// A sum that tells apart where bytes stand.
fn sum(bytes: &[u8]) -> u64 {
    let mut sum = 0u64;
    'bytes: for byte in bytes {
        sum = sum.wrapping_mul(257).wrapping_add(u64::from(*byte));
    }
    sum
}
