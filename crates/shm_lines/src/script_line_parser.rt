//! Reads a line: its first word says which line it is, and those behind it what it holds.
ghost use Rattle.std.specs.Prelude.{◌≡◌, ℕ, List, ok_or, codes};
ghost use Rattle.shm_lines.specs.Words.{by_verb, next_named};
ghost use Rattle.shm_lines.specs.Line.{line_of, call_of, others, sites_of, preset_of, frames_of, load_of, store_of, deliver_of, repeat_of, lose_of, tick_of, restart_of, show_of, back_of};

use crate::parse_segment_calls::parse_request;
use crate::script_line::Line;
use crate::split_words::Words;
use shm_model::{Event, Opening};
use shm_place::{MAX_FRAMES, PAGES, PageId, SegId, SiteId, Sites};

/// The bytes are no line of a script.
#[derive(Clone, Copy, Debug, PartialEq, Eq)]
pub struct BadLine;

/// Reads a line without its line feed. Takes no memory.
pub fn parse_line(line: &[u8]) -> Result<Line, BadLine>
    ensures { result ≡ ok_or (line_of line.now) (record {}) }
{
    let Some(line) = read(line) else {
        return Err(BadLine);
    };
    Ok(line)
}

#[inline(always)]
pub(crate) fn read(line: &[u8]) -> Option<Line>
    ensures { result ≡ line_of line.now }
{
    let (verb, words) = Words::of(line).word()?;
    if verb == b"load".as_slice() {
        return load(words);
    }
    if verb == b"store".as_slice() {
        return store(words);
    }
    if verb == b"deliver".as_slice() {
        return deliver(words);
    }
    if verb == b"repeat".as_slice() {
        return repeat(words);
    }
    if verb == b"lose".as_slice() {
        return lose(words);
    }
    other(verb, words)
}

fn other(verb: &[u8], words: Words<'_>) -> Option<Line>
    ensures { result ≡ by_verb others call_of verb.now words.entry }
{
    if verb == b"tick".as_slice() {
        return tick(words);
    }
    if verb == b"restart".as_slice() {
        return restart(words);
    }
    if verb == b"show".as_slice() {
        return show(words);
    }
    if verb == b"back".as_slice() {
        return back(words);
    }
    if verb == b"sites".as_slice() {
        return sites(words);
    }
    call(verb, words)
}

/// Reads the line of a segment call: behind the site come the words that the call has everywhere.
fn call(verb: &[u8], words: Words<'_>) -> Option<Line>
    ensures { result ≡ call_of verb.now words.entry }
{
    let (site, words) = words.number()?;
    let request = parse_request(verb, words)?;
    Some(Line::Event(Event::Begin {
        site: SiteId(site),
        request,
    }))
}

fn sites(words: Words<'_>) -> Option<Line>
    ensures { result ≡ sites_of words.entry }
{
    let (count, words) = words.number()?;
    let sites = Sites::new(count).ok()?;
    if words.is_empty() {
        return Some(Line::Sites(Opening::new(sites)));
    }
    preset(sites, words)
}

fn preset(sites: Sites, words: Words<'_>) -> Option<Line>
    ensures { result ≡ preset_of sites words.entry }
{
    let (size, words) = named_number(b"preset".as_slice(), PAGES, words)?;
    if words.is_empty() {
        return Some(Line::Sites(Opening::preset(sites, size)));
    }
    frames(sites, size, words)
}

fn frames(sites: Sites, size: u32, words: Words<'_>) -> Option<Line>
    ensures { result ≡ frames_of sites size words.entry }
{
    let (frames, words) = named_number(b"frames".as_slice(), MAX_FRAMES, words)?;
    words.if_closed(Line::Sites(Opening::framed(sites, size, frames)))
}

/// This word and a number from 1 to `most`, and the words after them.
fn named_number<'a>(name: &[u8], most: u32, words: Words<'a>) -> Option<(u32, Words<'a>)>
    ensures { result ≡ next_named name.now most words.entry }
{
    let (word, words) = words.word()?;
    let (value, words) = words.number()?;
    if word != name || value < 1 || value > most {
        return None;
    }
    Some((value, words))
}

#[inline(always)]
fn load(words: Words<'_>) -> Option<Line>
    ensures { result ≡ load_of words.entry }
{
    let (site, words) = words.number()?;
    let (at, words) = words.number()?;
    let (offset, words) = words.number()?;
    words.if_closed(Line::Event(Event::Load {
        site: SiteId(site),
        at,
        offset,
    }))
}

#[inline(always)]
fn store(words: Words<'_>) -> Option<Line>
    ensures { result ≡ store_of words.entry }
{
    let (site, words) = words.number()?;
    let (at, words) = words.number()?;
    let (offset, words) = words.number()?;
    let (byte, words) = words.byte()?;
    words.if_closed(Line::Event(Event::Store {
        site: SiteId(site),
        at,
        offset,
        byte,
    }))
}

#[inline(always)]
fn deliver(words: Words<'_>) -> Option<Line>
    ensures { result ≡ deliver_of words.entry }
{
    let (number, words) = words.number()?;
    words.if_closed(Line::Event(Event::Deliver(number as u64)))
}

fn repeat(words: Words<'_>) -> Option<Line>
    ensures { result ≡ repeat_of words.entry }
{
    let (number, words) = words.number()?;
    words.if_closed(Line::Event(Event::Repeat(number as u64)))
}

fn lose(words: Words<'_>) -> Option<Line>
    ensures { result ≡ lose_of words.entry }
{
    let (number, words) = words.number()?;
    words.if_closed(Line::Event(Event::Lose(number as u64)))
}

fn tick(words: Words<'_>) -> Option<Line>
    ensures { result ≡ tick_of words.entry }
{
    let (site, words) = words.number()?;
    words.if_closed(Line::Event(Event::Tick { site: SiteId(site) }))
}

fn restart(words: Words<'_>) -> Option<Line>
    ensures { result ≡ restart_of words.entry }
{
    let (site, words) = words.number()?;
    words.if_closed(Line::Event(Event::Restart { site: SiteId(site) }))
}

fn show(words: Words<'_>) -> Option<Line>
    ensures { result ≡ show_of words.entry }
{
    let (seg, words) = words.number()?;
    let (index, words) = words.number()?;
    words.if_closed(Line::Show(PageId {
        seg: SegId(seg),
        index,
    }))
}

fn back(words: Words<'_>) -> Option<Line>
    ensures { result ≡ back_of words.entry }
{
    let (count, words) = words.number()?;
    words.if_closed(Line::Back(count))
}
