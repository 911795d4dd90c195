ghost use Rattle.std.specs.Prelude.{◌≡◌, ◌<◌, ◌*◌};
ghost use Rattle.shm_place.specs.Offset;

use crate::limits::PAGE_BYTES;

/// The page index of an offset in a segment, and the offset within that page.
pub fn place(offset: u32) -> (u32, usize)
    ensures index { result.0 ≡ Offset.index_of offset }
    ensures within { result.1 ≡ Offset.within_of offset }
    ensures below { result.1 < PAGE_BYTES }
{
    let bytes = PAGE_BYTES as u32;
    (offset / bytes, (offset % bytes) as usize)
}

/// The bytes that a segment of this size has: its size rounded up to whole pages. Every offset below is valid.
pub fn rounded(size: u32) -> u64
    ensures whole { result ≡ Offset.rounded size }
{
    let bytes = PAGE_BYTES as u64;
    (size as u64 + (bytes - 1)) / bytes * bytes
}
