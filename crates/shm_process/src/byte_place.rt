//! Where a byte of a page stands in its segment.
ghost use Rattle.std.specs.Prelude.{◌≡◌};
ghost use Rattle.shm_process.specs.Mapped as mapped;

use shm_place::PAGE_BYTES;

/// The offset of a byte of the page with this index; for a page that no segment has it may be the greatest offset.
pub(crate) fn byte_place(index: u32, place: u32) -> u32
    ensures { result ≡ mapped.byte_place index place }
{
    index
        .saturating_mul(PAGE_BYTES as u32)
        .saturating_add(place)
}
