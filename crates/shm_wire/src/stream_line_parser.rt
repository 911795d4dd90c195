//! How a line of the stream is read: its first word says whether it is an envelope or what a caller asks.
ghost use Rattle.std.specs.Prelude.{◌≡◌, true, Some, None, IfOk, IfSome, IfNone, OnErr, is_some, option_map};
ghost use Rattle.shm_parts.specs.Message as parts;
ghost use Rattle.shm_wire.specs.Sent.{next_stamp};
ghost use Rattle.shm_wire.specs.Sent as said;
ghost use Rattle.shm_wire.specs.Asks.{ask_under};
ghost use Rattle.shm_wire.specs.Brought.{ask_brings, envelope_brings, may_grow, message_brings, sync_brings, unmap_brings, words_bring, write_brings};
ghost use Rattle.shm_wire.specs.Line as stream;
ghost use Rattle.shm_wire.specs.Line.{IsLine, asked_of, line_of_words, line_text, read_line};
ghost use Rattle.shm_wire.specs.LineOf.{line_of};
ghost use Rattle.shm_wire.specs.SentOf.{sent_of, source_of};
ghost use Rattle.shm_wire.specs.TagOf.{tag_text};
ghost use Rattle.shm_wire.specs.Writes.{stores_of};
ghost use Rattle.shm_wire.specs.Unmaps.{sync_of, unmap_of};
ghost use Rattle.shm_wire.specs.Messages.{message_of};

use crate::caller_tag::Tag;
use crate::parse_ask::ask;
use crate::parse_block_write::stores;
use crate::parse_message::plain;
use crate::parse_page::page;
use crate::parse_unmap::{sync, unmap};
use crate::parse_wire_words::wide;
use crate::sent_envelope::{Sent, Source};
use crate::stream_line::Line;
use shm_lines::Words;
use shm_parts::{Envelope, Message};
use shm_place::SiteId;
use std::alloc::{AllocError, Allocator};

/// Reads a line without its line feed: an envelope or an ask; `None` where it is neither. Only a page's bytes, and those that are to be
/// stored or brought, take memory.
pub fn parse_line<A: Allocator + Copy>(alloc: A, line: &[u8]) -> Result<Option<Line<A>>, AllocError>
    ensures read { IfOk result (λ read. option_map line_of read ≡ read_line line.now) }
    ensures spelled { IfOk result (λ read. IfSome read (λ is. IsLine (line_of is) × (line.now ≡ line_text (line_of is)))) }
    ensures memory { OnErr result (may_grow line.now ≡ true) }
{
    read(alloc, Words::of(line))
}

fn read<A: Allocator + Copy>(alloc: A, words: Words<'_>) -> Result<Option<Line<A>>, AllocError>
    ensures read { IfOk result (λ read. option_map line_of read ≡ line_of_words words.entry) }
    ensures memory { OnErr result (is_some (words_bring words.entry) ≡ true) }
{
    let Some((verb, words)) = words.word() else {
        return Ok(None);
    };
    if verb == b"ask".as_slice() {
        return asked(alloc, words);
    }
    if verb == b"env".as_slice() {
        return sent(alloc, words);
    }
    Ok(None)
}

fn asked<A: Allocator + Copy>(alloc: A, words: Words<'_>) -> Result<Option<Line<A>>, AllocError>
    ensures read { IfOk result (λ read. option_map line_of read ≡ asked_of words.entry) }
    ensures memory { OnErr result (is_some (ask_brings words.entry) ≡ true) }
{
    let Some((site, words)) = words.number() else {
        return Ok(None);
    };
    let Some((word, words)) = words.word() else {
        return Ok(None);
    };
    let Some(tag) = Tag::new(word) else {
        return Ok(None);
    };
    let Some((verb, words)) = words.word() else {
        return Ok(None);
    };
    let site = SiteId(site);
    if verb == b"write".as_slice() {
        return write_of_words(alloc, site, tag, words);
    }
    if verb == b"unmap".as_slice() {
        return unmap_of_words(alloc, site, tag, words);
    }
    if verb == b"sync".as_slice() {
        return sync_of_words(alloc, site, tag, words);
    }
    Ok(ask_of_words(site, tag, verb, words))
}

fn write_of_words<A: Allocator + Copy>(
    alloc: A,
    site: SiteId,
    tag: Tag,
    words: Words<'_>,
) -> Result<Option<Line<A>>, AllocError>
    ensures read { IfOk result (λ read. option_map line_of read ≡ option_map stream.Write (stores_of site (tag_text tag) words.entry)) }
    ensures memory { OnErr result (is_some (write_brings words.entry) ≡ true) }
{
    match stores(alloc, site, tag, words)? {
        Some(write) => Ok(Some(Line::Write(write))),
        None => Ok(None),
    }
}

fn unmap_of_words<A: Allocator + Copy>(
    alloc: A,
    site: SiteId,
    tag: Tag,
    words: Words<'_>,
) -> Result<Option<Line<A>>, AllocError>
    ensures read { IfOk result (λ read. option_map line_of read ≡ option_map stream.Unmap (unmap_of site (tag_text tag) words.entry)) }
    ensures memory { OnErr result (is_some (unmap_brings words.entry) ≡ true) }
{
    match unmap(alloc, site, tag, words)? {
        Some(unmap) => Ok(Some(Line::Unmap(unmap))),
        None => Ok(None),
    }
}

fn sync_of_words<A: Allocator + Copy>(
    alloc: A,
    site: SiteId,
    tag: Tag,
    words: Words<'_>,
) -> Result<Option<Line<A>>, AllocError>
    ensures read { IfOk result (λ read. option_map line_of read ≡ option_map stream.Unmap (sync_of site (tag_text tag) words.entry)) }
    ensures memory { OnErr result (is_some (sync_brings words.entry) ≡ true) }
{
    match sync(alloc, site, tag, words)? {
        Some(sync) => Ok(Some(Line::Unmap(sync))),
        None => Ok(None),
    }
}

fn ask_of_words<A: Allocator + Copy>(
    site: SiteId,
    tag: Tag,
    verb: &[u8],
    words: Words<'_>,
) -> Option<Line<A>>
    ensures { option_map line_of result ≡ option_map stream.Ask (ask_under site (tag_text tag) verb.now words.entry) }
{
    let ask = ask(site, tag, verb, words)?;
    Some(Line::Ask(ask))
}

fn sent<A: Allocator + Copy>(alloc: A, words: Words<'_>) -> Result<Option<Line<A>>, AllocError>
    ensures read { IfOk result (λ read. option_map line_of read ≡ option_map stream.Envelope (said.sent_of words.entry)) }
    ensures memory { OnErr result (is_some (envelope_brings words.entry) ≡ true) }
{
    match envelope_of_words(alloc, words)? {
        Some(sent) => Ok(Some(Line::Envelope(sent))),
        None => Ok(None),
    }
}

fn envelope_of_words<A: Allocator + Copy>(
    alloc: A,
    words: Words<'_>,
) -> Result<Option<Sent<A>>, AllocError>
    ensures read { IfOk result (λ sent. option_map sent_of sent ≡ said.sent_of words.entry) }
    ensures memory { OnErr result (is_some (envelope_brings words.entry) ≡ true) }
{
    let Some((from, words)) = words.number() else {
        return Ok(None);
    };
    let Some((to, words)) = words.number() else {
        return Ok(None);
    };
    let Some((source, words)) = stamp(words) else {
        return Ok(None);
    };
    let Some(message) = message(alloc, words)? else {
        return Ok(None);
    };
    let envelope = Envelope {
        from: SiteId(from),
        to: SiteId(to),
        message,
    };
    Ok(Some(Sent { source, envelope }))
}

fn stamp(words: Words<'_>) -> Option<(Source, Words<'_>)>
    ensures some { IfSome result (λ r. next_stamp words.entry ≡ Some (source_of r.0, r.1)) }
    ensures none { IfNone result (next_stamp words.entry ≡ None) }
{
    let (clock, words) = wide(words)?;
    let (index, words) = wide(words)?;
    let (place, words) = wide(words)?;
    let stamp = Source {
        clock,
        index,
        place,
    };
    Some((stamp, words))
}

fn message<A: Allocator + Copy>(
    alloc: A,
    words: Words<'_>,
) -> Result<Option<Message<A>>, AllocError>
    ensures read { IfOk result (λ message. option_map parts.message_of message ≡ message_of words.entry) }
    ensures memory { OnErr result (is_some (message_brings words.entry) ≡ true) }
{
    let Some((verb, words)) = words.word() else {
        return Ok(None);
    };
    if verb == b"page".as_slice() {
        return page(alloc, words);
    }
    Ok(plain(verb, words))
}
