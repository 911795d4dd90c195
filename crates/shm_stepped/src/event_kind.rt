//! What the events of an access that waits are.
ghost use Rattle.std.specs.Prelude.{◌≡◌};
ghost use Rattle.shm_parts.specs.Message.{message_of, note_of};
ghost use Rattle.shm_stepped.specs.Cost.{kind_of_message, kind_of_note};

use shm_parts::{BookNote, EntryNote, Message, Note};
use std::alloc::Allocator;

/// What an event is: the access itself, a tick, or a delivery, by its message.
#[derive(Clone, Copy, Debug, PartialEq, Eq)]
pub enum EventKind {
    /// The access was made.
    Access,
    /// A site ticked.
    Tick,
    /// An Ask was delivered to a manager.
    Ask,
    /// A Clear was delivered to a site that may have a copy.
    Clear,
    /// A Cleared was delivered to a manager.
    Cleared,
    /// A Hand was delivered to an owner.
    Hand,
    /// A Page was delivered, to read or to write.
    Page,
    /// A Confirm was delivered to a manager.
    Confirm,
    /// A message of a segment call or a purge was delivered.
    Other,
}

/// The kind of a delivery of this message.
pub(crate) fn kind_of_message<A: Allocator + Copy>(message: &Message<A>) -> EventKind
    ensures { result ≡ kind_of_message (message_of message.now) }
{
    match message {
        Message::Of { note, .. } => kind_of_note(note),
        Message::Call { .. }
        | Message::Reply { .. }
        | Message::Purge { .. }
        | Message::Purged { .. } => EventKind::Other,
    }
}

/// The same of a page's note.
fn kind_of_note<A: Allocator + Copy>(note: &Note<A>) -> EventKind
    ensures { result ≡ kind_of_note (note_of note.now) }
{
    match note {
        Note::ToBook(BookNote::Ask { .. }) => EventKind::Ask,
        Note::ToBook(BookNote::Cleared(_)) => EventKind::Cleared,
        Note::ToBook(BookNote::Confirm(_)) => EventKind::Confirm,
        Note::ToEntry(EntryNote::Clear(_)) => EventKind::Clear,
        Note::ToEntry(EntryNote::Hand { .. }) => EventKind::Hand,
        Note::ToEntry(EntryNote::Read(_) | EntryNote::Write(_)) => EventKind::Page,
    }
}
