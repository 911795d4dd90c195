//! Text that any terminal can be told.
ghost use Rattle.std.specs.Prelude.{◌≡◌, OnOk, true};
ghost use Rattle.shm_prompt.specs.Hints.{TellsPlain, is_plain};

use std::alloc::{AllocError, Allocator};

/// Tells the text, with `?` for each byte that is neither a printable character of ASCII nor a line feed.
pub(crate) fn tell_plain<A: Allocator + Copy>(
    text: &[u8],
    out: &mut Vec<u8, A>,
) -> Result<(), AllocError>
    ensures { OnOk result (TellsPlain out.old.items out.new.items) }
{
    'bytes: for byte in text {
        out.push(plain(*byte))?;
    }
    Ok(())
}

/// The byte, or `?`.
fn plain(byte: u8) -> u8
    ensures { is_plain result ≡ true }
{
    if byte == b'\n' || byte >= b' ' && byte <= b'~' {
        return byte;
    }
    b'?'
}
