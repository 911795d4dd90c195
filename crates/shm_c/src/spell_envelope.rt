//! Envelopes, accesses and states, as numbers.
ghost use Rattle.std.specs.Prelude.{◌≡◌, None, Some};
ghost use Rattle.shm_parts.specs.Message.{book_note_of, entry_note_of, envelope_of, message_of, note_of};
ghost use Rattle.shm_c.specs.Sent.{access_number, envelope_numbers, is_write, message_numbers, no_envelope, note_numbers, shown_numbers, state_number};

use crate::numbers::{EnvelopeNumbers, ShownNumbers};
use shm_model::{Access, Kind, Shown, State};
use shm_parts::{BookNote, EntryNote, Envelope, Message, Note};

/// Checks that the right is that to write.
fn is_write(kind: Kind) -> bool
    ensures { result ≡ is_write kind }
{
    match kind {
        Kind::Read => false,
        Kind::Write => true,
    }
}

/// No envelope.
pub(crate) fn no_envelope() -> EnvelopeNumbers
    ensures { result ≡ no_envelope }
{
    EnvelopeNumbers {
        kind: 0,
        from: 0,
        to: 0,
        seg: 0,
        index: 0,
        number: 0,
        writes: false,
        hand_to: 0,
    }
}

/// A message with a number, and that is to write.
fn numbered(kind: u32, number: u64, writes: bool) -> EnvelopeNumbers
    ensures { result ≡ record no_envelope { kind = kind; number = number; writes = writes } }
{
    let mut numbers = no_envelope();
    numbers.kind = kind;
    numbers.number = number;
    numbers.writes = writes;
    numbers
}

/// A note to a manager.
fn book_note_numbers(note: BookNote) -> EnvelopeNumbers
    ensures { result ≡ note_numbers (book_note_of note) }
{
    match note {
        BookNote::Ask { request, kind } => numbered(1, request, is_write(kind)),
        BookNote::Cleared(number) => numbered(2, number, false),
        BookNote::Confirm(number) => numbered(3, number, false),
    }
}

/// A note to a site that holds the page, or asked for it.
fn entry_note_numbers(note: &EntryNote) -> EnvelopeNumbers
    ensures { result ≡ note_numbers (entry_note_of note.now) }
{
    match note {
        &EntryNote::Clear(number) => numbered(4, number, false),
        &EntryNote::Hand { number, kind, to } => {
            let mut numbers = numbered(5, number, is_write(kind));
            numbers.hand_to = to.0;
            numbers
        }
        EntryNote::Read(grant) => numbered(6, grant.number(), false),
        EntryNote::Write(grant) => numbered(6, grant.number(), true),
    }
}

/// A note of a page.
fn note_numbers(note: &Note) -> EnvelopeNumbers
    ensures { result ≡ note_numbers (note_of note.now) }
{
    match note {
        &Note::ToBook(told) => book_note_numbers(told),
        Note::ToEntry(told) => entry_note_numbers(told),
    }
}

/// A message to or of a segment's home.
fn segment_message(kind: u32, seg: u32) -> EnvelopeNumbers
    ensures { result ≡ record no_envelope { kind = kind; seg = seg } }
{
    let mut numbers = no_envelope();
    numbers.kind = kind;
    numbers.seg = seg;
    numbers
}

/// A message.
fn message_numbers(message: &Message) -> EnvelopeNumbers
    ensures { result ≡ message_numbers (message_of message.now) }
{
    match message {
        Message::Of { page, note } => {
            let mut numbers = note_numbers(note);
            numbers.seg = page.seg.0;
            numbers.index = page.index;
            numbers
        }
        &Message::Call { number, op: _ } => numbered(7, number, false),
        &Message::Reply { number, reply: _ } => numbered(8, number, false),
        &Message::Purge { id } => segment_message(9, id.0),
        &Message::Purged { id } => segment_message(10, id.0),
    }
}

/// An envelope.
pub(crate) fn envelope_numbers(envelope: &Envelope) -> EnvelopeNumbers
    ensures { result ≡ envelope_numbers (Some (envelope_of envelope.now)) }
{
    let mut numbers = message_numbers(&envelope.message);
    numbers.from = envelope.from.0;
    numbers.to = envelope.to.0;
    numbers
}

/// An access: 0 none, 1 to read, 2 to write; 3 where there is no such site or no such page.
pub(crate) fn access_number(access: Option<Access>) -> u32
    ensures { result ≡ access_number access }
{
    match access {
        None => 3,
        Some(Access::Nil) => 0,
        Some(Access::Read) => 1,
        Some(Access::Write) => 2,
    }
}

/// A state.
fn state_number(state: State) -> u32
    ensures { result ≡ state_number state }
{
    match state {
        State::Nil => 0,
        State::Copy => 1,
        State::OwnRead => 2,
        State::OwnWrite => 3,
        State::Handed => 4,
        State::Purged => 5,
    }
}

/// A page as a site holds it.
pub(crate) fn shown_numbers(shown: Option<Shown>) -> ShownNumbers
    ensures { result ≡ shown_numbers shown }
{
    match shown {
        None => ShownNumbers { state: 6, seen: 0 },
        Some(shown) => ShownNumbers {
            state: state_number(shown.state),
            seen: shown.seen,
        },
    }
}
