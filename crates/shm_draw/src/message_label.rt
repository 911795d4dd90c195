//! The name of a message, and the page that it is about.
ghost use Rattle.std.specs.Prelude.{◌≡◌};
ghost use Rattle.shm_parts.specs.Message.{message_of, note_of};
ghost use Rattle.shm_draw.specs.Picture;
ghost use Rattle.shm_draw.specs.Svg;

use shm_parts::{BookNote, EntryNote, Message, Note};
use shm_place::PageId;
use std::alloc::Allocator;

/// The name of a message.
#[derive(Clone, Copy, Debug, PartialEq, Eq)]
pub enum Word {
    Ask,
    Clear,
    Cleared,
    Hand,
    Page,
    Confirm,
    Call,
    Reply,
    Purge,
    Purged,
}

pub(crate) fn word_of<A: Allocator + Copy>(message: &Message<A>) -> Word
    ensures { result ≡ Picture.word_of (message_of message.now) }
{
    match message {
        Message::Of { note, .. } => word_of_note(note),
        Message::Call { .. } => Word::Call,
        Message::Reply { .. } => Word::Reply,
        Message::Purge { .. } => Word::Purge,
        Message::Purged { .. } => Word::Purged,
    }
}

fn word_of_note<A: Allocator + Copy>(note: &Note<A>) -> Word
    ensures { result ≡ Picture.word_of_note (note_of note.now) }
{
    match note {
        Note::ToBook(BookNote::Ask { .. }) => Word::Ask,
        Note::ToBook(BookNote::Cleared(_)) => Word::Cleared,
        Note::ToBook(BookNote::Confirm(_)) => Word::Confirm,
        Note::ToEntry(EntryNote::Clear(_)) => Word::Clear,
        Note::ToEntry(EntryNote::Hand { .. }) => Word::Hand,
        Note::ToEntry(EntryNote::Read(_) | EntryNote::Write(_)) => Word::Page,
    }
}

/// The page that the message is about. A segment call, a purge and their answers are about none.
pub(crate) fn page_of<A: Allocator + Copy>(message: &Message<A>) -> Option<PageId>
    ensures { result ≡ Picture.page_of (message_of message.now) }
{
    match message {
        Message::Of { page, .. } => Some(*page),
        _ => None,
    }
}

pub(crate) fn name_of(word: Word) -> &'static str
    ensures { result.now ≡ Svg.word_text word }
{
    match word {
        Word::Ask => "Ask",
        Word::Clear => "Clear",
        Word::Cleared => "Cleared",
        Word::Hand => "Hand",
        Word::Page => "Page",
        Word::Confirm => "Confirm",
        Word::Call => "Call",
        Word::Reply => "Reply",
        Word::Purge => "Purge",
        Word::Purged => "Purged",
    }
}
