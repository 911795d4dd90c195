//! Reads the parts of a site's state, except a page's bytes.
ghost use Rattle.std.specs.Prelude.{◌≡◌, option_map};
ghost use Rattle.shm_state.specs.Part.{Calls, Requests};
ghost use Rattle.shm_state.specs.PartOf.{part_in};
ghost use Rattle.shm_state.specs.PartWords.{attachment_of, book_of, counted_of, kept_of, missing_of, outstanding_of, pages_of, plain_of, purged_of, segment_of};

use crate::parse_book::book;
use crate::parse_set::sites;
use crate::part::Part;
use shm_keys::Segment;
use shm_lines::{Words, parse_call};
use shm_place::{Key, SegId, SiteId};
use shm_wire::words::{page_id, reply, standing, wide};
use std::alloc::Allocator;

/// The part of this kind, if it has no page's bytes.
pub fn plain<A: Allocator + Copy>(verb: &[u8], words: Words<'_>) -> Option<Part<A>>
    ensures { option_map part_in result ≡ plain_of verb.now words.entry }
{
    if verb == b"requests".as_slice() {
        return requests(words);
    }
    if verb == b"calls".as_slice() {
        return calls(words);
    }
    if verb == b"outstanding".as_slice() {
        return outstanding(words);
    }
    if verb == b"segment".as_slice() {
        return segment(words);
    }
    if verb == b"missing".as_slice() {
        return missing(words);
    }
    if verb == b"kept".as_slice() {
        return kept(words);
    }
    pages(verb, words)
}

/// The part of this kind, if it is of pages.
fn pages<A: Allocator + Copy>(verb: &[u8], words: Words<'_>) -> Option<Part<A>>
    ensures { option_map part_in result ≡ pages_of verb.now words.entry }
{
    if verb == b"purged".as_slice() {
        return purged(words);
    }
    if verb == b"attachment".as_slice() {
        return attachment(words);
    }
    if verb == b"book".as_slice() {
        return book_part(words);
    }
    None
}

fn requests<A: Allocator + Copy>(words: Words<'_>) -> Option<Part<A>>
    ensures { option_map part_in result ≡ counted_of Requests words.entry }
{
    let (number, words) = wide(words)?;
    if !words.is_empty() {
        return None;
    }
    Some(Part::Requests(number))
}

fn calls<A: Allocator + Copy>(words: Words<'_>) -> Option<Part<A>>
    ensures { option_map part_in result ≡ counted_of Calls words.entry }
{
    let (number, words) = wide(words)?;
    if !words.is_empty() {
        return None;
    }
    Some(Part::Calls(number))
}

fn outstanding<A: Allocator + Copy>(words: Words<'_>) -> Option<Part<A>>
    ensures { option_map part_in result ≡ outstanding_of words.entry }
{
    let (number, words) = wide(words)?;
    let op = parse_call(words)?;
    Some(Part::Outstanding { number, op })
}

fn segment<A: Allocator + Copy>(words: Words<'_>) -> Option<Part<A>>
    ensures { option_map part_in result ≡ segment_of words.entry }
{
    let (id, words) = words.number()?;
    let (key, words) = words.number()?;
    let (size, words) = words.number()?;
    let (mode, words) = words.mode()?;
    let (owner, words) = words.cred()?;
    let (creator, words) = words.cred()?;
    let (nattch, words) = wide(words)?;
    let (marked, words) = standing(words)?;
    if !words.is_empty() {
        return None;
    }
    Some(Part::Segment(Segment {
        id: SegId(id),
        key: Key(key),
        uid: owner.uid,
        gid: owner.gid,
        cuid: creator.uid,
        cgid: creator.gid,
        mode,
        size,
        nattch,
        marked,
    }))
}

fn missing<A: Allocator + Copy>(words: Words<'_>) -> Option<Part<A>>
    ensures { option_map part_in result ≡ missing_of words.entry }
{
    let (id, words) = words.number()?;
    let (missing, words) = sites(words)?;
    if !words.is_empty() {
        return None;
    }
    let id = SegId(id);
    Some(Part::Missing { id, missing })
}

fn kept<A: Allocator + Copy>(words: Words<'_>) -> Option<Part<A>>
    ensures { option_map part_in result ≡ kept_of words.entry }
{
    let (site, words) = words.number()?;
    let (number, words) = wide(words)?;
    let reply = reply(words)?;
    Some(Part::Kept {
        site: SiteId(site),
        number,
        reply,
    })
}

fn purged<A: Allocator + Copy>(words: Words<'_>) -> Option<Part<A>>
    ensures { option_map part_in result ≡ purged_of words.entry }
{
    let (id, words) = words.number()?;
    if !words.is_empty() {
        return None;
    }
    Some(Part::Purged(SegId(id)))
}

fn attachment<A: Allocator + Copy>(words: Words<'_>) -> Option<Part<A>>
    ensures { option_map part_in result ≡ attachment_of words.entry }
{
    let (number, words) = words.number()?;
    let (id, words) = words.number()?;
    let (size, words) = words.number()?;
    let (ro, words) = words.access()?;
    if !words.is_empty() {
        return None;
    }
    Some(Part::Attachment {
        number,
        id: SegId(id),
        size,
        ro,
    })
}

fn book_part<A: Allocator + Copy>(words: Words<'_>) -> Option<Part<A>>
    ensures { option_map part_in result ≡ book_of words.entry }
{
    let (page, words) = page_id(words)?;
    let book = book(words)?;
    Some(Part::Book { page, book })
}
