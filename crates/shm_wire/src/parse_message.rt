//! Reads messages, except a page's bytes.
ghost use Rattle.std.specs.Prelude.{◌≡◌, option_map};
ghost use Rattle.shm_model.specs.Entry.{Clear, Cleared, Confirm};
ghost use Rattle.shm_model.specs.Message.{Purge, Purged};
ghost use Rattle.shm_parts.specs.Message.{message_of};
ghost use Rattle.shm_wire.specs.Messages.{next_page, plain_of, ask_of, numbered_of, hand_of, called_of, replied_of, of_segment};

use crate::parse_call_reply::reply;
use crate::parse_wire_words::{kind, wide};
use shm_lines::{Words, parse_call};
use shm_parts::{BookNote, EntryNote, Message, Note};
use shm_place::{PageId, SegId, SiteId};
use std::alloc::Allocator;

/// The message of this kind, if it brings no page.
pub fn plain<A: Allocator + Copy>(verb: &[u8], words: Words<'_>) -> Option<Message<A>>
    ensures { option_map message_of result ≡ plain_of verb.now words.entry }
{
    if verb == b"ask".as_slice() {
        return ask(words);
    }
    if verb == b"clear".as_slice() {
        return clear(words);
    }
    if verb == b"cleared".as_slice() {
        return cleared_message(words);
    }
    if verb == b"hand".as_slice() {
        return hand(words);
    }
    if verb == b"confirm".as_slice() {
        return confirm(words);
    }
    if verb == b"call".as_slice() {
        return call_message(words);
    }
    if verb == b"reply".as_slice() {
        return reply_message(words);
    }
    if verb == b"purge".as_slice() {
        return purge(words);
    }
    if verb == b"purged".as_slice() {
        return purged_message(words);
    }
    None
}

/// The next two words as a page, and those after them.
pub fn page_id(words: Words<'_>) -> Option<(PageId, Words<'_>)>
    ensures { result ≡ next_page words.entry }
{
    let (seg, words) = words.number()?;
    let (index, words) = words.number()?;
    let page = PageId {
        seg: SegId(seg),
        index,
    };
    Some((page, words))
}

fn ask<A: Allocator + Copy>(words: Words<'_>) -> Option<Message<A>>
    ensures { option_map message_of result ≡ ask_of words.entry }
{
    let (page, words) = page_id(words)?;
    let (request, words) = wide(words)?;
    let (kind, words) = kind(words)?;
    if !words.is_empty() {
        return None;
    }
    Some(Message::Of {
        page,
        note: Note::ToBook(BookNote::Ask { request, kind }),
    })
}

fn clear<A: Allocator + Copy>(words: Words<'_>) -> Option<Message<A>>
    ensures { option_map message_of result ≡ numbered_of Clear words.entry }
{
    let (page, words) = page_id(words)?;
    let (number, words) = wide(words)?;
    if !words.is_empty() {
        return None;
    }
    Some(Message::Of {
        page,
        note: Note::ToEntry(EntryNote::Clear(number)),
    })
}

fn cleared_message<A: Allocator + Copy>(words: Words<'_>) -> Option<Message<A>>
    ensures { option_map message_of result ≡ numbered_of Cleared words.entry }
{
    let (page, words) = page_id(words)?;
    let (number, words) = wide(words)?;
    if !words.is_empty() {
        return None;
    }
    Some(Message::Of {
        page,
        note: Note::ToBook(BookNote::Cleared(number)),
    })
}

fn hand<A: Allocator + Copy>(words: Words<'_>) -> Option<Message<A>>
    ensures { option_map message_of result ≡ hand_of words.entry }
{
    let (page, words) = page_id(words)?;
    let (number, words) = wide(words)?;
    let (kind, words) = kind(words)?;
    let (to, words) = words.number()?;
    if !words.is_empty() {
        return None;
    }
    Some(Message::Of {
        page,
        note: Note::ToEntry(EntryNote::Hand {
            number,
            kind,
            to: SiteId(to),
        }),
    })
}

fn confirm<A: Allocator + Copy>(words: Words<'_>) -> Option<Message<A>>
    ensures { option_map message_of result ≡ numbered_of Confirm words.entry }
{
    let (page, words) = page_id(words)?;
    let (number, words) = wide(words)?;
    if !words.is_empty() {
        return None;
    }
    Some(Message::Of {
        page,
        note: Note::ToBook(BookNote::Confirm(number)),
    })
}

fn call_message<A: Allocator + Copy>(words: Words<'_>) -> Option<Message<A>>
    ensures { option_map message_of result ≡ called_of words.entry }
{
    let (number, words) = wide(words)?;
    let op = parse_call(words)?;
    Some(Message::Call { number, op })
}

fn reply_message<A: Allocator + Copy>(words: Words<'_>) -> Option<Message<A>>
    ensures { option_map message_of result ≡ replied_of words.entry }
{
    let (number, words) = wide(words)?;
    let reply = reply(words)?;
    Some(Message::Reply { number, reply })
}

fn purge<A: Allocator + Copy>(words: Words<'_>) -> Option<Message<A>>
    ensures { option_map message_of result ≡ of_segment Purge words.entry }
{
    let (id, words) = words.number()?;
    if !words.is_empty() {
        return None;
    }
    Some(Message::Purge { id: SegId(id) })
}

fn purged_message<A: Allocator + Copy>(words: Words<'_>) -> Option<Message<A>>
    ensures { option_map message_of result ≡ of_segment Purged words.entry }
{
    let (id, words) = words.number()?;
    if !words.is_empty() {
        return None;
    }
    Some(Message::Purged { id: SegId(id) })
}
