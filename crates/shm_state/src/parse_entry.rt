//! How what a site has of a page is read.
ghost use Rattle.std.specs.Prelude.{◌≡◌, option_map, IfOk};
ghost use Rattle.shm_model.specs.Entry as pages;
ghost use Rattle.shm_state.specs.EntryWords.{entry_of, filled_of, gone_of, handed_of, numbered_bytes_of};
ghost use Rattle.shm_state.specs.PartOf.{entry_in};

use crate::part::EntryPart;
use shm_lines::Words;
use shm_number::Number;
use shm_place::SiteId;
use shm_wire::words::{page_bytes, wide};
use std::alloc::{AllocError, Allocator};

/// What the site has of a page, by the words behind the page.
pub fn entry<A: Allocator + Copy>(
    alloc: A,
    words: Words<'_>,
) -> Result<Option<EntryPart<A>>, AllocError>
    ensures { IfOk result (λ entry. option_map entry_in entry ≡ entry_of words.entry) }
{
    let Some((verb, words)) = words.word() else {
        return Ok(None);
    };
    if verb == b"gone".as_slice() {
        return Ok(gone(words));
    }
    if verb == b"copy".as_slice() {
        return copy(alloc, words);
    }
    if verb == b"own-read".as_slice() {
        return own_read(alloc, words);
    }
    if verb == b"own-write".as_slice() {
        return own_write(alloc, words);
    }
    if verb == b"handed".as_slice() {
        return handed(alloc, words);
    }
    Ok(None)
}

fn gone<A: Allocator + Copy>(words: Words<'_>) -> Option<EntryPart<A>>
    ensures { option_map entry_in result ≡ gone_of words.entry }
{
    let (number, words) = wide(words)?;
    if !words.is_empty() {
        return None;
    }
    Some(EntryPart::Gone { number })
}

fn copy<A: Allocator + Copy>(alloc: A, words: Words<'_>) -> Result<Option<EntryPart<A>>, AllocError>
    ensures { IfOk result (λ entry. option_map entry_in entry ≡ filled_of pages.Copy words.entry) }
{
    match numbered_bytes(alloc, words)? {
        Some((number, bytes)) => Ok(Some(EntryPart::Copy { number, bytes })),
        None => Ok(None),
    }
}

fn own_read<A: Allocator + Copy>(
    alloc: A,
    words: Words<'_>,
) -> Result<Option<EntryPart<A>>, AllocError>
    ensures { IfOk result (λ entry. option_map entry_in entry ≡ filled_of pages.OwnRead words.entry) }
{
    match numbered_bytes(alloc, words)? {
        Some((number, bytes)) => Ok(Some(EntryPart::OwnRead { number, bytes })),
        None => Ok(None),
    }
}

fn own_write<A: Allocator + Copy>(
    alloc: A,
    words: Words<'_>,
) -> Result<Option<EntryPart<A>>, AllocError>
    ensures { IfOk result (λ entry. option_map entry_in entry ≡ filled_of pages.OwnWrite words.entry) }
{
    match numbered_bytes(alloc, words)? {
        Some((number, bytes)) => Ok(Some(EntryPart::OwnWrite { number, bytes })),
        None => Ok(None),
    }
}

fn handed<A: Allocator + Copy>(
    alloc: A,
    words: Words<'_>,
) -> Result<Option<EntryPart<A>>, AllocError>
    ensures { IfOk result (λ entry. option_map entry_in entry ≡ handed_of words.entry) }
{
    let Some((number, words)) = wide(words) else {
        return Ok(None);
    };
    let Some((to, words)) = words.number() else {
        return Ok(None);
    };
    let Some((word, words)) = words.word() else {
        return Ok(None);
    };
    let Some(bytes) = page_bytes(alloc, word)? else {
        return Ok(None);
    };
    if !words.is_empty() {
        return Ok(None);
    }
    let to = SiteId(to);
    Ok(Some(EntryPart::Handed { number, to, bytes }))
}

/// All words that are left, as a number and a page's bytes.
fn numbered_bytes<A: Allocator + Copy>(
    alloc: A,
    words: Words<'_>,
) -> Result<Option<(Number, Vec<u8, A>)>, AllocError>
    ensures { IfOk result (λ found. option_map (λ r. (r.0, r.1.items)) found ≡ numbered_bytes_of words.entry) }
{
    let Some((number, words)) = wide(words) else {
        return Ok(None);
    };
    let Some((word, words)) = words.word() else {
        return Ok(None);
    };
    let Some(bytes) = page_bytes(alloc, word)? else {
        return Ok(None);
    };
    if !words.is_empty() {
        return Ok(None);
    }
    Ok(Some((number, bytes)))
}
