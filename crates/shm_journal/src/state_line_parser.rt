//! Reads the lines of a state.
ghost use Rattle.std.specs.Prelude.{◌≡◌, IfOk, option_map};
ghost use Rattle.shm_lines.specs.Words.{next_of};
ghost use Rattle.shm_wire.specs.TagOf.{tag_text};
ghost use Rattle.shm_wire.specs.Words.{kind_of};
ghost use Rattle.shm_journal.specs.StateLines.{caller_after, ending_of, mapping_of, read_further, read_state, told_of};
ghost use Rattle.shm_journal.specs.StateOf.{state_line_in};

use crate::state_line::{Ending, StateLine};
use shm_lines::Words;
use shm_model::Kind;
use shm_state::parse_part;
use shm_wire::words::{kind_named, page_id, wide};
use shm_wire::{Mapping, Tag};
use std::alloc::{AllocError, Allocator};

/// Reads a line, without its line feed, as one of a state. `None` where it is none. Only a page's bytes take memory.
pub fn parse_state_line<A: Allocator + Copy>(
    alloc: A,
    line: &[u8],
) -> Result<Option<StateLine<A>>, AllocError>
    ensures { IfOk result (λ read. option_map state_line_in read ≡ read_state line.now) }
{
    match parse_part(alloc, line)? {
        Some(part) => Ok(Some(StateLine::Part(part))),
        None => Ok(parse_further(line)),
    }
}

/// Reads a line that is no part of the site's state.
fn parse_further<A: Allocator + Copy>(line: &[u8]) -> Option<StateLine<A>>
    ensures { option_map state_line_in result ≡ read_further line.now }
{
    let (word, words) = Words::of(line).word()?;
    if word != b"state".as_slice() {
        return None;
    }
    told(words)
}

fn told<A: Allocator + Copy>(words: Words<'_>) -> Option<StateLine<A>>
    ensures { option_map state_line_in result ≡ told_of words.entry }
{
    let (verb, words) = words.word()?;
    if verb == b"mapped".as_slice() {
        return mapping(words);
    }
    if verb == b"clock".as_slice() {
        return ending(words);
    }
    None
}

fn mapping<A: Allocator + Copy>(words: Words<'_>) -> Option<StateLine<A>>
    ensures { option_map state_line_in result ≡ mapping_of words.entry }
{
    let (at, words) = words.number()?;
    let (page, words) = page_id(words)?;
    let (kind, words) = kind(words)?;
    if !words.is_empty() {
        return None;
    }
    Some(StateLine::Mapping(Mapping { at, page, kind }))
}

/// The next word as the right that a page is mapped with, and those after it.
fn kind(words: Words<'_>) -> Option<(Kind, Words<'_>)>
    ensures { result ≡ next_of kind_of words.entry }
{
    let (word, words) = words.word()?;
    let value = kind_named(word)?;
    Some((value, words))
}

fn ending<A: Allocator + Copy>(words: Words<'_>) -> Option<StateLine<A>>
    ensures { option_map state_line_in result ≡ ending_of words.entry }
{
    let (clock, words) = wide(words)?;
    let (steps, words) = wide(words)?;
    let caller = caller(words)?;
    if clock < steps {
        return None;
    }
    Some(StateLine::Ending(Ending {
        clock,
        steps,
        caller,
    }))
}

/// Reads what is left of a state's end: a caller's tag, or nothing.
fn caller(words: Words<'_>) -> Option<Option<Tag>>
    ensures { option_map (option_map tag_text) result ≡ caller_after words.entry }
{
    let Some((word, words)) = words.word() else {
        return Some(None);
    };
    if !words.is_empty() {
        return None;
    }
    let tag = Tag::new(word)?;
    Some(Some(tag))
}
