//! How bytes are read from a word, their base64.
ghost use Rattle.std.specs.Prelude.{◌≡◌, option_map, IfOk};
ghost use Rattle.shm_wire.specs.BytesWord.{bytes_of};

use base64::DecodeAllocError;
use base64::engine::general_purpose::STANDARD;
use std::alloc::{AllocError, Allocator};

/// The bytes that the word is the base64 of.
pub fn decode<A: Allocator + Copy>(alloc: A, word: &[u8]) -> Result<Option<Vec<u8, A>>, AllocError>
    ensures { IfOk result (λ bytes. option_map (λ v. v.items) bytes ≡ bytes_of word.now) }
{
    match STANDARD.decode(alloc, word) {
        Ok(bytes) => Ok(Some(bytes)),
        Err(DecodeAllocError::OutOfMemory) => Err(AllocError),
        Err(DecodeAllocError::DecodeError(_)) => Ok(None),
    }
}
