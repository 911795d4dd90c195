//! `flight`: the envelopes on their way.
use shm_model::Kind;
use shm_parts::{BookNote, EntryNote, Envelope, Message, Note};
use shm_place::PageId;
use shm_world::World;
use std::alloc::{AllocError, Allocator};

/// Lists the envelopes on their way, the oldest first: number, from, to, kind, page and the transaction's number.
pub(crate) fn list_flight<A: Allocator + Copy>(
    text: &mut String<A>,
    world: &World<A>,
) -> Result<(), AllocError> {
    let before = text.len();
    'numbers: for number in 0..world.sent() {
        list_live(text, world, number)?;
    }
    if text.len() == before {
        return text.push_str("nothing is on its way\n");
    }
    Ok(())
}

/// Lists the envelope of this number, if it is on its way.
fn list_live<A: Allocator + Copy>(
    text: &mut String<A>,
    world: &World<A>,
    number: u64,
) -> Result<(), AllocError> {
    match world.envelope(number) {
        None => Ok(()),
        Some(envelope) => list_envelope(text, number, envelope),
    }
}

fn list_envelope<A: Allocator + Copy>(
    text: &mut String<A>,
    number: u64,
    envelope: &Envelope<A>,
) -> Result<(), AllocError> {
    let from = envelope.from.0;
    let to = envelope.to.0;
    write!(text, "m{number} {from}>{to} ")?;
    describe(text, &envelope.message)?;
    text.push_str("\n")
}

/// Prints the message's name, its page or segment, and its number.
fn describe<A: Allocator + Copy>(
    text: &mut String<A>,
    message: &Message<A>,
) -> Result<(), AllocError> {
    match message {
        Message::Of { page, note } => describe_note(text, *page, note),
        Message::Call { number, .. } => write!(text, "Call number {number}"),
        Message::Reply { number, .. } => write!(text, "Reply number {number}"),
        Message::Purge { id } => write!(text, "Purge segment {}", id.0),
        Message::Purged { id } => write!(text, "Purged segment {}", id.0),
    }
}

/// Prints the name of the page's note.
fn describe_note<A: Allocator + Copy>(
    text: &mut String<A>,
    page: PageId,
    note: &Note<A>,
) -> Result<(), AllocError> {
    match note {
        Note::ToBook(BookNote::Ask { request, kind }) => {
            text.push_str("Ask")?;
            name_page(text, page)?;
            write!(text, " request {request} to {}", verb_of(*kind))
        }
        Note::ToBook(BookNote::Cleared(number)) => {
            tell_transaction(text, "Cleared", page, *number)
        }
        Note::ToBook(BookNote::Confirm(number)) => {
            tell_transaction(text, "Confirm", page, *number)
        }
        Note::ToEntry(EntryNote::Clear(number)) => tell_transaction(text, "Clear", page, *number),
        Note::ToEntry(EntryNote::Hand { number, kind, to }) => {
            tell_transaction(text, "Hand", page, *number)?;
            write!(text, " to site {} to {}", to.0, verb_of(*kind))
        }
        Note::ToEntry(EntryNote::Read(copy)) => {
            tell_transaction(text, "Page", page, copy.number())?;
            text.push_str(" to read")
        }
        Note::ToEntry(EntryNote::Write(whole)) => {
            tell_transaction(text, "Page", page, whole.number())?;
            text.push_str(" to write")
        }
    }
}

/// A message of a page's transaction.
fn tell_transaction<A: Allocator + Copy>(
    text: &mut String<A>,
    name: &str,
    page: PageId,
    number: u64,
) -> Result<(), AllocError> {
    text.push_str(name)?;
    name_page(text, page)?;
    write!(text, " t {number}")
}

fn name_page<A: Allocator + Copy>(text: &mut String<A>, page: PageId) -> Result<(), AllocError> {
    let seg = page.seg.0;
    let index = page.index;
    write!(text, " page {seg} {index}")
}

pub(crate) fn verb_of(kind: Kind) -> &'static str {
    match kind {
        Kind::Read => "read",
        Kind::Write => "write",
    }
}

/// The pages of which the envelopes on their way speak, one for each.
pub(crate) fn pages_in_flight<A: Allocator + Copy>(
    alloc: A,
    world: &World<A>,
) -> Result<Vec<PageId, A>, AllocError> {
    let mut pages = Vec::new(alloc);
    'numbers: for number in 0..world.sent() {
        if let Some(page) = page_of(world, number) {
            pages.push(page)?;
        }
    }
    Ok(pages)
}

/// The page of which the envelope of this number speaks, if it is on its way and speaks of one.
fn page_of<A: Allocator + Copy>(world: &World<A>, number: u64) -> Option<PageId> {
    match world.envelope(number) {
        Some(
            Envelope {
                message: Message::Of { page, .. },
                ..
            },
        ) => Some(*page),
        _ => None,
    }
}
