//! How a mapping that a caller gives up, or whose bytes it brings, is read.
ghost use Rattle.std.specs.Prelude.{◌≡◌, ◌<◌, true, is_some, length, map, option_map, IfOk, IfSome, IfNone, OnErr, Some, None};
ghost use Rattle.shm_model.specs.declared.request_kind.Kind.TheVariants.{Write};
ghost use Rattle.shm_wire.specs.Brought.{run_brings, sync_brings, unmap_brings};
ghost use Rattle.shm_wire.specs.TagOf.{tag_text};
ghost use Rattle.shm_wire.specs.UnmapOf.{run_in, unmap_in};
ghost use Rattle.shm_wire.specs.Unmaps as said;

use crate::caller_tag::Tag;
use crate::parse_ask::is_block;
use crate::parse_base64::decode;
use crate::unmap_ask::{Run, UnmapAsk};
use shm_lines::Words;
use shm_model::Kind;
use shm_place::SiteId;
use std::alloc::{AllocError, Allocator};

/// The mapping that is given up, or lowered, under this site and tag, and the bytes that changed.
pub fn unmap<A: Allocator + Copy>(
    alloc: A,
    site: SiteId,
    tag: Tag,
    words: Words<'_>,
) -> Result<Option<UnmapAsk<A>>, AllocError>
    ensures read { IfOk result (λ unmap. option_map unmap_in unmap ≡ said.unmap_of site (tag_text tag) words.entry) }
    ensures memory { OnErr result (is_some (unmap_brings words.entry) ≡ true) }
{
    let Some((at, words)) = words.number() else {
        return Ok(None);
    };
    let Some((index, words)) = words.number() else {
        return Ok(None);
    };
    let Some((keeps, words)) = keeps(words) else {
        return Ok(None);
    };
    let Some(runs) = runs(alloc, words)? else {
        return Ok(None);
    };
    Ok(Some(UnmapAsk {
        site,
        tag,
        at,
        index,
        keeps,
        runs,
    }))
}

/// The mapping whose bytes are brought, under this site and tag.
pub fn sync<A: Allocator + Copy>(
    alloc: A,
    site: SiteId,
    tag: Tag,
    words: Words<'_>,
) -> Result<Option<UnmapAsk<A>>, AllocError>
    ensures read { IfOk result (λ sync. option_map unmap_in sync ≡ said.sync_of site (tag_text tag) words.entry) }
    ensures memory { OnErr result (is_some (sync_brings words.entry) ≡ true) }
{
    let Some((at, words)) = words.number() else {
        return Ok(None);
    };
    let Some((index, words)) = words.number() else {
        return Ok(None);
    };
    let Some(runs) = runs(alloc, words)? else {
        return Ok(None);
    };
    Ok(Some(UnmapAsk {
        site,
        tag,
        at,
        index,
        keeps: Some(Kind::Write),
        runs,
    }))
}

/// The next word as what stays mapped, and those after it.
fn keeps(words: Words<'_>) -> Option<(Option<Kind>, Words<'_>)>
    ensures { result ≡ said.next_keeps words.entry }
{
    let (word, words) = words.word()?;
    let value = keeps_named(word)?;
    Some((value, words))
}

fn keeps_named(word: &[u8]) -> Option<Option<Kind>>
    ensures { result ≡ said.keeps_of word.now }
{
    if word == b"none".as_slice() {
        return Some(None);
    }
    if word == b"read".as_slice() {
        return Some(Some(Kind::Read));
    }
    None
}

/// All words that are left, as runs of bytes.
fn runs<A: Allocator + Copy>(
    alloc: A,
    words: Words<'_>,
) -> Result<Option<Vec<Run<A>, A>>, AllocError>
    ensures read { IfOk result (λ runs. option_map (λ v. map run_in v.items) runs ≡ said.runs_of words.entry) }
    ensures memory { OnErr result (is_some (run_brings words.entry) ≡ true) }
{
    let mut runs = Vec::new(alloc);
    let mut words = words;
    'runs: while !words.is_empty() {
        let Some((run, others)) = next_run(alloc, words)? else {
            return Ok(None);
        };
        runs.push(run)?;
        words = others;
    }
    Ok(Some(runs))
}

/// The next two words as bytes and where they stand, and the words after those.
fn next_run<A: Allocator + Copy>(
    alloc: A,
    words: Words<'_>,
) -> Result<Option<(Run<A>, Words<'_>)>, AllocError>
    ensures some { IfOk result (λ next. IfSome next (λ r. said.next_run words.entry ≡ Some (run_in r.0, r.1))) }
    ensures none { IfOk result (λ next. IfNone next (said.next_run words.entry ≡ None)) }
    ensures memory { OnErr result (is_some (run_brings words.entry) ≡ true) }
{
    let Some((offset, words)) = words.number() else {
        return Ok(None);
    };
    let Some((word, words)) = words.word() else {
        return Ok(None);
    };
    let Some(bytes) = decode(alloc, word)? else {
        return Ok(None);
    };
    if !is_block(offset, bytes.len()) {
        return Ok(None);
    }
    Ok(Some((Run { offset, bytes }, words)))
}
