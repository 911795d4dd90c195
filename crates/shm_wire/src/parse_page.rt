//! How a page's bytes are read, and the note that brings them.
ghost use Rattle.std.specs.Prelude.{◌≡◌, ◌<◌, true, is_some, length, option_map, IfOk, IfSome, OnErr};
ghost use Rattle.shm_place.specs.Limits as limits;
ghost use Rattle.shm_model.specs.Entry as note;
ghost use Rattle.shm_page.specs.State as state;
ghost use Rattle.shm_parts.specs.Message.{message_of, note_of};
ghost use Rattle.shm_wire.specs.Brought.{page_brings};
ghost use Rattle.shm_wire.specs.Messages.{page_of};
ghost use Rattle.shm_wire.specs.PageWord.{page_bytes_of};

use crate::parse_base64::decode;
use crate::parse_message::page_id;
use crate::parse_wire_words::{kind, wide};
use shm_lines::Words;
use shm_model::Kind;
use shm_page::{Entry, OwnWritePage};
use shm_parts::{EntryNote, Message, Note};
use shm_place::{PAGE_BYTES, SiteId};
use std::alloc::{AllocError, Allocator};

/// The message that brings a page.
pub fn page<A: Allocator + Copy>(
    alloc: A,
    words: Words<'_>,
) -> Result<Option<Message<A>>, AllocError>
    ensures read { IfOk result (λ message. option_map message_of message ≡ page_of words.entry) }
    ensures memory { OnErr result (is_some (page_brings words.entry) ≡ true) }
{
    let Some((page, words)) = page_id(words) else {
        return Ok(None);
    };
    let Some((number, words)) = wide(words) else {
        return Ok(None);
    };
    let Some((kind, words)) = kind(words) else {
        return Ok(None);
    };
    let Some((word, words)) = words.word() else {
        return Ok(None);
    };
    let Some(bytes) = page_bytes(alloc, word)? else {
        return Ok(None);
    };
    if number == 0 || !words.is_empty() {
        return Ok(None);
    }
    let note = grant_note(alloc, number, kind, bytes.as_slice())?;
    Ok(Some(Message::Of { page, note }))
}

/// The bytes of a page that the word is the base64 of.
pub fn page_bytes<A: Allocator + Copy>(
    alloc: A,
    word: &[u8],
) -> Result<Option<Vec<u8, A>>, AllocError>
    ensures bytes { IfOk result (λ bytes. option_map (λ v. v.items) bytes ≡ page_bytes_of word.now) }
    ensures whole { IfOk result (λ bytes. IfSome bytes (λ v. length v.items ≡ limits.page_bytes)) }
{
    let Some(bytes) = decode(alloc, word)? else {
        return Ok(None);
    };
    if bytes.len() != PAGE_BYTES {
        return Ok(None);
    }
    Ok(Some(bytes))
}

/// The note that grants a page with these bytes. Like each grant, an owner's page makes it, which is lent or handed.
fn grant_note<A: Allocator + Copy>(
    alloc: A,
    number: u64,
    kind: Kind,
    bytes: &[u8],
) -> Result<Note<A>, AllocError>
    requires number { 0 < number }
    requires whole { length bytes.now ≡ limits.page_bytes }
    ensures { IfOk result (λ n. note_of n ≡ note.Page number kind bytes.now) }
{
    let owned = owned_page(alloc, bytes)?;
    match kind {
        Kind::Read => match owned.downgrade(number) {
            Ok((_page, grant)) => Ok(Note::ToEntry(EntryNote::Read(grant))),
            Err((_page, error)) => Err(error),
        },
        Kind::Write => match owned.hand(number, SiteId(0)) {
            Ok((_page, grant)) => Ok(Note::ToEntry(EntryNote::Write(grant))),
            Err((_page, error)) => Err(error),
        },
    }
}

/// A page with these bytes, at an owner that has met no transaction.
fn owned_page<A: Allocator + Copy>(alloc: A, bytes: &[u8]) -> Result<OwnWritePage<A>, AllocError>
    requires { length bytes.now ≡ limits.page_bytes }
    ensures { IfOk result (λ page. page ≡ state.page_of 0 bytes.now) }
{
    let Entry::OwnWrite(mut page) = Entry::opening(alloc, true)? else {
        unreachable!();
    };
    fill(&mut page, bytes);
    Ok(page)
}

/// Stores each of a page's bytes.
fn fill<A: Allocator + Copy>(page: &mut OwnWritePage<A>, bytes: &[u8])
    requires page { length page.old.bytes ≡ limits.page_bytes }
    requires whole { length bytes.now ≡ limits.page_bytes }
    ensures { page.new ≡ state.page_of page.old.seen bytes.now }
{
    'bytes: for (at, byte) in bytes.iter().enumerate() {
        page.store(at, *byte);
    }
}
