//! Reads the words of a caller.
ghost use Rattle.std.specs.Prelude.{◌≡◌, option_map};
ghost use Rattle.shm_wire.specs.Words.{ended};
ghost use Rattle.shm_wire.specs.Asks as said;
ghost use Rattle.shm_wire.specs.TagOf.{tag_text};
ghost use Rattle.shm_wire.specs.Asks.{ask_of, asked_by, begun_of, load_of, map_of, read_of, show_of, store_of, try_load_of, try_store_of};

use crate::caller_ask::{Ask, Question};
use crate::caller_tag::Tag;
use crate::parse_message::page_id;
use crate::parse_wire_words::kind;
use shm_lines::{Words, parse_request};
use shm_model::Asked;
use shm_place::{PAGE_BYTES, SiteId};

/// Reads the ask under this verb, of this site and under this tag.
pub fn ask(site: SiteId, tag: Tag, verb: &[u8], words: Words<'_>) -> Option<Ask>
    ensures { option_map ask_of result ≡ said.ask_under site (tag_text tag) verb.now words.entry }
{
    let asked = question(verb, words)?;
    Some(Ask { site, tag, asked })
}

fn question(verb: &[u8], words: Words<'_>) -> Option<Question>
    ensures { result ≡ asked_by verb.now words.entry }
{
    if verb == b"load".as_slice() {
        return load(words);
    }
    if verb == b"store".as_slice() {
        return store(words);
    }
    if verb == b"try-load".as_slice() {
        return try_load(words);
    }
    if verb == b"try-store".as_slice() {
        return try_store(words);
    }
    if verb == b"read".as_slice() {
        return read(words);
    }
    if verb == b"tick".as_slice() {
        return tick(words);
    }
    if verb == b"show".as_slice() {
        return show(words);
    }
    if verb == b"health".as_slice() {
        return health(words);
    }
    if verb == b"map".as_slice() {
        return map(words);
    }
    if verb == b"mappings".as_slice() {
        return mappings(words);
    }
    begin_of_words(verb, words)
}

fn load(words: Words<'_>) -> Option<Question>
    ensures { result ≡ load_of words.entry }
{
    let (at, words) = words.number()?;
    let (offset, words) = words.number()?;
    if !words.is_empty() {
        return None;
    }
    Some(Question::Access(Asked::Load { at, offset }))
}

fn store(words: Words<'_>) -> Option<Question>
    ensures { result ≡ store_of words.entry }
{
    let (at, words) = words.number()?;
    let (offset, words) = words.number()?;
    let (byte, words) = words.byte()?;
    if !words.is_empty() {
        return None;
    }
    Some(Question::Access(Asked::Store { at, offset, byte }))
}

fn try_load(words: Words<'_>) -> Option<Question>
    ensures { result ≡ try_load_of words.entry }
{
    let (at, words) = words.number()?;
    let (offset, words) = words.number()?;
    if !words.is_empty() {
        return None;
    }
    Some(Question::Try(Asked::Load { at, offset }))
}

fn try_store(words: Words<'_>) -> Option<Question>
    ensures { result ≡ try_store_of words.entry }
{
    let (at, words) = words.number()?;
    let (offset, words) = words.number()?;
    let (byte, words) = words.byte()?;
    if !words.is_empty() {
        return None;
    }
    Some(Question::Try(Asked::Store { at, offset, byte }))
}

fn read(words: Words<'_>) -> Option<Question>
    ensures { result ≡ read_of words.entry }
{
    let (at, words) = words.number()?;
    let (offset, words) = words.number()?;
    let (length, words) = words.number()?;
    if !is_block(offset, length as usize) || !words.is_empty() {
        return None;
    }
    Some(Question::Read { at, offset, length })
}

/// Checks that these are the bytes of a block: at most a page, and each at an offset that there is.
pub fn is_block(offset: u32, length: usize) -> bool
    ensures { result ≡ said.is_block offset length }
{
    length > 0 && length <= PAGE_BYTES && u64::from(offset) + length as u64 <= 1 << 32
}

fn tick(words: Words<'_>) -> Option<Question>
    ensures { result ≡ ended Question.Tick words.entry }
{
    if !words.is_empty() {
        return None;
    }
    Some(Question::Tick)
}

fn show(words: Words<'_>) -> Option<Question>
    ensures { result ≡ show_of words.entry }
{
    let (page, words) = page_id(words)?;
    if !words.is_empty() {
        return None;
    }
    Some(Question::Show(page))
}

fn health(words: Words<'_>) -> Option<Question>
    ensures { result ≡ ended Question.Health words.entry }
{
    if !words.is_empty() {
        return None;
    }
    Some(Question::Health)
}

fn map(words: Words<'_>) -> Option<Question>
    ensures { result ≡ map_of words.entry }
{
    let (at, words) = words.number()?;
    let (index, words) = words.number()?;
    let (kind, words) = kind(words)?;
    if !words.is_empty() {
        return None;
    }
    Some(Question::Map { at, index, kind })
}

fn mappings(words: Words<'_>) -> Option<Question>
    ensures { result ≡ ended Question.Mappings words.entry }
{
    if !words.is_empty() {
        return None;
    }
    Some(Question::Mappings)
}

fn begin_of_words(verb: &[u8], words: Words<'_>) -> Option<Question>
    ensures { result ≡ begun_of verb.now words.entry }
{
    let request = parse_request(verb, words)?;
    Some(Question::Begin(request))
}
