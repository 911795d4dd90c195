//! The messages about pages that were handed over in a run.
ghost use Rattle.std.specs.Prelude.{◌≡◌};
ghost use Rattle.shm_parts.specs.Message.{message_of, note_of};
ghost use Rattle.shm_simulate.specs.Messages as said;

use shm_parts::{BookNote, EntryNote, Message, Note};
use shm_place::PageId;

/// The kinds of messages about a page.
#[derive(Clone, Copy, Debug, PartialEq, Eq)]
pub enum MessageKind {
    Ask,
    Clear,
    Cleared,
    Hand,
    Page,
    Confirm,
}

impl MessageKind {
    ghost use Rattle.shm_simulate.specs.Texts.{kind_text};

    /// Its name.
    pub fn name(self) -> &'static str
        ensures { result.now ≡ kind_text self }
    {
        match self {
            MessageKind::Ask => "Ask",
            MessageKind::Clear => "Clear",
            MessageKind::Cleared => "Cleared",
            MessageKind::Hand => "Hand",
            MessageKind::Page => "Page",
            MessageKind::Confirm => "Confirm",
        }
    }
}

/// A message about a page that was handed over.
#[derive(Clone, Copy, Debug)]
pub struct PageMessage {
    pub kind: MessageKind,
    pub page: PageId,
}

/// What is kept of a message, if it is about a page.
pub(crate) fn page_message_of(message: &Message) -> Option<PageMessage>
    ensures { result ≡ said.page_message_of (message_of message.now) }
{
    match message {
        Message::Of { page, note } => Some(PageMessage {
            kind: kind_of(note),
            page: *page,
        }),
        _ => None,
    }
}

fn kind_of(note: &Note) -> MessageKind
    ensures { result ≡ said.kind_of (note_of note.now) }
{
    match note {
        Note::ToBook(BookNote::Ask { .. }) => MessageKind::Ask,
        Note::ToBook(BookNote::Cleared(_)) => MessageKind::Cleared,
        Note::ToBook(BookNote::Confirm(_)) => MessageKind::Confirm,
        Note::ToEntry(EntryNote::Clear(_)) => MessageKind::Clear,
        Note::ToEntry(EntryNote::Hand { .. }) => MessageKind::Hand,
        Note::ToEntry(EntryNote::Read(_) | EntryNote::Write(_)) => MessageKind::Page,
    }
}
