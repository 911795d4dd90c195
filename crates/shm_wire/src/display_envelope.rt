//! How an envelope is spelled: the one line that is read back as it.
use crate::display_call_reply::ReplyWords;
use crate::sent_envelope::{Sent, SentLine};
use base64::display::Base64Display;
use base64::engine::general_purpose::STANDARD;
use shm_lines::CallWords;
use shm_model::Kind;
use shm_parts::{BookNote, EntryNote, Message, Note};
use shm_place::PageId;
use std::alloc::Allocator;
use std::fmt;

impl<A: Allocator + Copy> fmt::Display for Sent<A> {
    ghost use Rattle.std.specs.Prelude.{Some};
    ghost use Rattle.shm_wire.specs.Sent.{envelope_line};
    ghost use Rattle.shm_wire.specs.SentOf.{sent_of};

    ghost output = { λ sent. Some (envelope_line (sent_of sent)) };

    /// The envelope's line, without a line feed.
    fn fmt<W: fmt::Write>(&self, f: &mut fmt::Formatter<W>) -> fmt::Result {
        let line = SentLine {
            source: self.source,
            envelope: &self.envelope,
        };
        write!(f, "{line}")
    }
}

impl<'a, A: Allocator + Copy> fmt::Display for SentLine<'a, A> {
    ghost use Rattle.std.specs.Prelude.{Some};
    ghost use Rattle.shm_wire.specs.Sent.{envelope_line};
    ghost use Rattle.shm_wire.specs.SentOf.{sent_in};

    ghost output = { λ line. Some (envelope_line (sent_in line)) };

    /// The envelope's line, without a line feed.
    fn fmt<W: fmt::Write>(&self, f: &mut fmt::Formatter<W>) -> fmt::Result {
        let envelope = self.envelope;
        let from = envelope.from.0;
        let to = envelope.to.0;
        let clock = self.source.clock;
        let index = self.source.index;
        let place = self.source.place;
        let message = Told {
            message: &envelope.message,
        };
        write!(f, "env {from} {to} {clock} {index} {place} {message}")
    }
}

/// A message, as its words spell it.
#[derive(Clone, Copy)]
struct Told<'a, A: Allocator + Copy> {
    message: &'a Message<A>,
}

impl<'a, A: Allocator + Copy> fmt::Display for Told<'a, A> {
    ghost use Rattle.std.specs.Prelude.{Some};
    ghost use Rattle.std.specs.List.{join_with_byte};
    ghost use Rattle.shm_parts.specs.Message.{message_of};
    ghost use Rattle.shm_wire.specs.Messages.{message_words};

    ghost output = { λ told. Some (join_with_byte 32 (message_words (message_of told.message.now))) };

    fn fmt<W: fmt::Write>(&self, f: &mut fmt::Formatter<W>) -> fmt::Result {
        match self.message {
            Message::Of { page, note } => {
                let told = ToldNote { page: *page, note };
                write!(f, "{told}")
            }
            Message::Call { number, op } => write!(f, "call {number} {}", CallWords(*op)),
            Message::Reply { number, reply } => write!(f, "reply {number} {}", ReplyWords(*reply)),
            Message::Purge { id } => write!(f, "purge {}", id.0),
            Message::Purged { id } => write!(f, "purged {}", id.0),
        }
    }
}

/// A note of a page, as its words spell it.
#[derive(Clone, Copy)]
struct ToldNote<'a, A: Allocator + Copy> {
    page: PageId,
    note: &'a Note<A>,
}

impl<'a, A: Allocator + Copy> fmt::Display for ToldNote<'a, A> {
    ghost use Rattle.std.specs.Prelude.{Some};
    ghost use Rattle.std.specs.List.{join_with_byte};
    ghost use Rattle.shm_parts.specs.Message.{note_of};
    ghost use Rattle.shm_wire.specs.Messages.{note_words};

    ghost output = { λ told. Some (join_with_byte 32 (note_words told.page (note_of told.note.now))) };

    fn fmt<W: fmt::Write>(&self, f: &mut fmt::Formatter<W>) -> fmt::Result {
        let seg = self.page.seg.0;
        let index = self.page.index;
        match self.note {
            Note::ToBook(BookNote::Ask { request, kind }) => {
                write!(f, "ask {seg} {index} {request} {}", KindWord(*kind))
            }
            Note::ToBook(BookNote::Cleared(number)) => {
                write!(f, "cleared {seg} {index} {number}")
            }
            Note::ToBook(BookNote::Confirm(number)) => {
                write!(f, "confirm {seg} {index} {number}")
            }
            Note::ToEntry(EntryNote::Clear(number)) => write!(f, "clear {seg} {index} {number}"),
            Note::ToEntry(EntryNote::Hand { number, kind, to }) => write!(
                f,
                "hand {seg} {index} {number} {} {}",
                KindWord(*kind),
                to.0
            ),
            Note::ToEntry(EntryNote::Read(grant)) => {
                let number = grant.number();
                let bytes = Base64Display::new(grant.bytes(), &STANDARD);
                write!(f, "page {seg} {index} {number} read {bytes}")
            }
            Note::ToEntry(EntryNote::Write(grant)) => {
                let number = grant.number();
                let bytes = Base64Display::new(grant.bytes(), &STANDARD);
                write!(f, "page {seg} {index} {number} write {bytes}")
            }
        }
    }
}

/// The word for a transaction's kind.
#[derive(Clone, Copy)]
pub struct KindWord(pub Kind);

impl fmt::Display for KindWord {
    ghost use Rattle.std.specs.Prelude.{Some};
    ghost use Rattle.shm_wire.specs.Words.{kind_word};

    ghost output = { λ word. Some (kind_word word.0) };

    fn fmt<W: fmt::Write>(&self, f: &mut fmt::Formatter<W>) -> fmt::Result {
        match self.0 {
            Kind::Read => write!(f, "read"),
            Kind::Write => write!(f, "write"),
        }
    }
}
