//! The numbers that messages name.
ghost use Rattle.std.specs.Prelude.{◌≡◌};
ghost use Rattle.shm_parts.specs.Message.{book_note_of, entry_note_of, message_of, note_of};
ghost use Rattle.shm_process.specs.Numbers as spec;

use shm_parts::{BookNote, EntryNote, Message, Note};
use std::alloc::Allocator;

/// The number that the message names can have been got by this clock.
pub(crate) fn numbers_fit<A: Allocator + Copy>(clock: u64, message: &Message<A>) -> bool
    ensures { result ≡ spec.numbers_fit clock (message_of message.now) }
{
    number_named(message) <= clock
}

/// The number of a request, of a transaction or of a segment call; 0 where the message has none.
fn number_named<A: Allocator + Copy>(message: &Message<A>) -> u64
    ensures { result ≡ spec.number_named (message_of message.now) }
{
    match message {
        Message::Of { note, .. } => number_noted(note),
        &Message::Call { number, .. } => number,
        &Message::Reply { number, .. } => number,
        Message::Purge { .. } | Message::Purged { .. } => 0,
    }
}

fn number_noted<A: Allocator + Copy>(note: &Note<A>) -> u64
    ensures { result ≡ spec.number_noted (note_of note.now) }
{
    match note {
        &Note::ToBook(told) => number_to_book(told),
        Note::ToEntry(told) => number_to_entry(told),
    }
}

fn number_to_book(told: BookNote) -> u64
    ensures { result ≡ spec.number_noted (book_note_of told) }
{
    match told {
        BookNote::Ask { request, .. } => request,
        BookNote::Cleared(number) | BookNote::Confirm(number) => number,
    }
}

fn number_to_entry<A: Allocator + Copy>(told: &EntryNote<A>) -> u64
    ensures { result ≡ spec.number_noted (entry_note_of told.now) }
{
    match told {
        &EntryNote::Clear(number) => number,
        &EntryNote::Hand { number, .. } => number,
        EntryNote::Read(grant) => grant.number(),
        EntryNote::Write(grant) => grant.number(),
    }
}
