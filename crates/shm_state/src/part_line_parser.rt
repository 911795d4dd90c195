//! How a line of a site's state is read.
ghost use Rattle.std.specs.Prelude.{◌≡◌, IfOk, IfSome, option_map};
ghost use Rattle.shm_state.specs.PartOf.{part_in};
ghost use Rattle.shm_state.specs.PartWords.{IsPart, entry_of, part_line, part_of, read_part, told_of};

use crate::parse_entry::entry;
use crate::parse_plain_part::plain;
use crate::part::Part;
use shm_lines::Words;
use shm_wire::words::page_id;
use std::alloc::{AllocError, Allocator};

/// Reads a line without its line feed: a part of a site's state; `None` where it is none. Only a page's bytes take memory.
pub fn parse_part<A: Allocator + Copy>(alloc: A, line: &[u8]) -> Result<Option<Part<A>>, AllocError>
    ensures read { IfOk result (λ read. option_map part_in read ≡ read_part line.now) }
    ensures spelled { IfOk result (λ read. IfSome read (λ part. IsPart (part_in part) × (line.now ≡ part_line (part_in part)))) }
{
    read(alloc, Words::of(line))
}

fn read<A: Allocator + Copy>(alloc: A, words: Words<'_>) -> Result<Option<Part<A>>, AllocError>
    ensures { IfOk result (λ read. option_map part_in read ≡ part_of words.entry) }
{
    let Some((word, words)) = words.word() else {
        return Ok(None);
    };
    if word == b"state".as_slice() {
        return told(alloc, words);
    }
    Ok(None)
}

fn told<A: Allocator + Copy>(alloc: A, words: Words<'_>) -> Result<Option<Part<A>>, AllocError>
    ensures { IfOk result (λ read. option_map part_in read ≡ told_of words.entry) }
{
    let Some((verb, words)) = words.word() else {
        return Ok(None);
    };
    if verb == b"entry".as_slice() {
        return entry_part(alloc, words);
    }
    Ok(plain(verb, words))
}

fn entry_part<A: Allocator + Copy>(
    alloc: A,
    words: Words<'_>,
) -> Result<Option<Part<A>>, AllocError>
    ensures { IfOk result (λ read. option_map part_in read ≡ entry_of words.entry) }
{
    let Some((page, words)) = page_id(words) else {
        return Ok(None);
    };
    match entry(alloc, words)? {
        Some(entry) => Ok(Some(Part::Entry { page, entry })),
        None => Ok(None),
    }
}
