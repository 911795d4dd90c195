//! The names of a page's states and of messages.
ghost use Rattle.std.specs.Prelude.{◌≡◌};
ghost use Rattle.shm_parts.specs.Message.{message_of, note_of};
ghost use Rattle.shm_text.specs.Names;

use shm_model::State;
use shm_parts::{BookNote, EntryNote, Message, Note};
use std::alloc::Allocator;

/// The name of the state in which a site holds a page.
pub fn state_name(state: State) -> &'static str
    ensures { result.now ≡ Names.state_name state }
{
    match state {
        State::Nil => "Nil",
        State::Copy => "Copy",
        State::OwnRead => "OwnRead",
        State::OwnWrite => "OwnWrite",
        State::Handed => "Handed",
        State::Purged => "Purged",
    }
}

/// The name of a message.
pub fn message_name<A: Allocator + Copy>(message: &Message<A>) -> &'static str
    ensures { result.now ≡ Names.message_name (message_of message.now) }
{
    match message {
        Message::Of { note, .. } => note_name(note),
        Message::Call { .. } => "Call",
        Message::Reply { .. } => "Reply",
        Message::Purge { .. } => "Purge",
        Message::Purged { .. } => "Purged",
    }
}

/// The name of a note of a page.
fn note_name<A: Allocator + Copy>(note: &Note<A>) -> &'static str
    ensures { result.now ≡ Names.note_name (note_of note.now) }
{
    match note {
        Note::ToBook(BookNote::Ask { .. }) => "Ask",
        Note::ToBook(BookNote::Cleared(_)) => "Cleared",
        Note::ToBook(BookNote::Confirm(_)) => "Confirm",
        Note::ToEntry(EntryNote::Clear(_)) => "Clear",
        Note::ToEntry(EntryNote::Hand { .. }) => "Hand",
        Note::ToEntry(EntryNote::Read(_) | EntryNote::Write(_)) => "Page",
    }
}
