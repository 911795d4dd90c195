//! How bytes that a caller asks to be stored are read.
ghost use Rattle.std.specs.Prelude.{◌≡◌, true, is_some, option_map, IfOk, OnErr};
ghost use Rattle.shm_wire.specs.Brought.{write_brings};
ghost use Rattle.shm_wire.specs.TagOf.{tag_text};
ghost use Rattle.shm_wire.specs.WriteOf.{write_of};
ghost use Rattle.shm_wire.specs.Writes.{stores_of};

use crate::block_write::WriteAsk;
use crate::caller_tag::Tag;
use crate::parse_ask::is_block;
use crate::parse_base64::decode;
use shm_lines::Words;
use shm_place::SiteId;
use std::alloc::{AllocError, Allocator};

/// The bytes, and where they are to be stored, under this site and tag.
pub fn stores<A: Allocator + Copy>(
    alloc: A,
    site: SiteId,
    tag: Tag,
    words: Words<'_>,
) -> Result<Option<WriteAsk<A>>, AllocError>
    ensures read { IfOk result (λ write. option_map write_of write ≡ stores_of site (tag_text tag) words.entry) }
    ensures memory { OnErr result (is_some (write_brings words.entry) ≡ true) }
{
    let Some((at, words)) = words.number() else {
        return Ok(None);
    };
    let Some((offset, words)) = words.number() else {
        return Ok(None);
    };
    let Some((word, words)) = words.word() else {
        return Ok(None);
    };
    let Some(bytes) = decode(alloc, word)? else {
        return Ok(None);
    };
    if !is_block(offset, bytes.len()) || !words.is_empty() {
        return Ok(None);
    }
    Ok(Some(WriteAsk {
        site,
        tag,
        at,
        offset,
        bytes,
    }))
}
