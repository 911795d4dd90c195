//! Messages between sites.
ghost use Rattle.std.specs.Prelude.{◌≡◌, true, IsErr, IfOk};
ghost use Rattle.shm_parts.specs.Message.{brings_bytes, entry_note_of, envelope_of, has_bytes, holds_page, message_of, note_of};

use shm_model::{Kind, Op, Reply};
use shm_page::{ReadGrant, WriteGrant};
use shm_place::{PageId, SegId, SiteId};
use std::alloc::{AllocError, Allocator, Global};

/// A message about a page (Li and Hudak 1989, §3.2): to its manager's book, or to the entry of a site that holds it or wants it.
#[derive(Drop)]
pub enum Note<A: Allocator + Copy = Global> {
    /// To the page's manager.
    ToBook(BookNote),
    /// To a site that holds the page, or that asked for it.
    ToEntry(EntryNote<A>),
}

/// A message to a page's manager. A number that stands alone is that of the page's transaction.
#[derive(Clone, Copy, Debug, PartialEq, Eq)]
pub enum BookNote {
    /// A right to the page is wanted.
    Ask { request: u64, kind: Kind },
    /// The copy is given up.
    Cleared(u64),
    /// The requester has what it asked for.
    Confirm(u64),
}

/// A message to a site that holds the page or asked for it. A number that stands alone is that of the page's transaction.
#[derive(Drop)]
pub enum EntryNote<A: Allocator + Copy = Global> {
    /// From the manager: give the copy up.
    Clear(u64),
    /// From the manager to the owner: hand the page, or a copy of it, to the site `to`.
    Hand { number: u64, kind: Kind, to: SiteId },
    /// From the owner to who asked: a copy to read.
    Read(ReadGrant<A>),
    /// From the owner to who asked: the page to write.
    Write(WriteGrant<A>),
}

/// A message about pages or segment calls. `number` is that of a segment call.
#[derive(Drop)]
pub enum Message<A: Allocator + Copy = Global> {
    /// A note of a page.
    Of { page: PageId, note: Note<A> },
    /// A segment call, to its home.
    Call { number: u64, op: Op },
    /// The home's reply to a segment call.
    Reply { number: u64, reply: Reply },
    /// From the home: the segment is destroyed; give up what is held of it.
    Purge { id: SegId },
    /// To the home: nothing of the segment is held.
    Purged { id: SegId },
}

/// A message on its way from one site to another, or to itself.
#[derive(Drop)]
pub struct Envelope<A: Allocator + Copy = Global> {
    pub from: SiteId,
    pub to: SiteId,
    pub message: Message<A>,
}

impl<A: Allocator + Copy> EntryNote<A> {
    /// An equal note. Only a page's bytes may take memory.
    pub fn copy(&self) -> Result<EntryNote<A>, AllocError>
        ensures note { IfOk result (λ note. entry_note_of note ≡ entry_note_of self.now) }
        ensures memory { IsErr result → brings_bytes self.now ≡ true }
    {
        match self {
            &EntryNote::Clear(number) => Ok(EntryNote::Clear(number)),
            &EntryNote::Hand { number, kind, to } => Ok(EntryNote::Hand { number, kind, to }),
            EntryNote::Read(grant) => Ok(EntryNote::Read(grant.copy()?)),
            EntryNote::Write(grant) => Ok(EntryNote::Write(grant.copy()?)),
        }
    }
}

impl<A: Allocator + Copy> Note<A> {
    /// An equal note. Only a page's bytes may take memory.
    pub fn copy(&self) -> Result<Note<A>, AllocError>
        ensures note { IfOk result (λ note. note_of note ≡ note_of self.now) }
        ensures memory { IsErr result → has_bytes self.now ≡ true }
    {
        match self {
            &Note::ToBook(told) => Ok(Note::ToBook(told)),
            Note::ToEntry(told) => Ok(Note::ToEntry(told.copy()?)),
        }
    }
}

impl<A: Allocator + Copy> Message<A> {
    /// An equal message. Only a page's bytes may take memory.
    pub fn copy(&self) -> Result<Message<A>, AllocError>
        ensures message { IfOk result (λ message. message_of message ≡ message_of self.now) }
        ensures memory { IsErr result → holds_page self.now ≡ true }
    {
        match self {
            Message::Of { page, note } => {
                let note = note.copy()?;
                Ok(Message::Of { page: *page, note })
            }
            &Message::Call { number, op } => Ok(Message::Call { number, op }),
            &Message::Reply { number, reply } => Ok(Message::Reply { number, reply }),
            &Message::Purge { id } => Ok(Message::Purge { id }),
            &Message::Purged { id } => Ok(Message::Purged { id }),
        }
    }
}

impl<A: Allocator + Copy> Envelope<A> {
    /// An equal envelope, as a network makes one when it hands a message over twice. Only a page's bytes may take memory.
    pub fn copy(&self) -> Result<Envelope<A>, AllocError>
        ensures envelope { IfOk result (λ envelope. envelope_of envelope ≡ envelope_of self.now) }
        ensures memory { IsErr result → holds_page self.now.message ≡ true }
    {
        let message = self.message.copy()?;
        Ok(Envelope {
            from: self.from,
            to: self.to,
            message,
        })
    }
}
