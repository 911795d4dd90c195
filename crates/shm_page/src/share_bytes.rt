ghost use Rattle.std.specs.Prelude.{◌≡◌, ◌+◌, ◌≤◌, [], length, vec_capacity, vec_len, IfOk, IfErr};

use bytes::Bytes;
use std::alloc::{AllocError, AllocFailed, Allocator};

/// Bytes with two holders, and the room that wasn't needed.
pub(crate) type Shared<A> = (Bytes<A>, Bytes<A>, Vec<u8, A>);

/// Gives bytes two holders without a copy. Where the second is refused they are copied into the room, so that they come back in memory of their own.
pub(crate) fn share<A: Allocator + Copy>(
    bytes: Vec<u8, A>,
    mut room: Vec<u8, A>,
) -> Result<Shared<A>, (Vec<u8, A>, AllocError)>
    requires empty { room.items ≡ [] }
    requires fits { vec_len room + length bytes.items ≤ vec_capacity room }
    ensures first { IfOk result (λ r. r.0 ≡ bytes.items) }
    ensures second { IfOk result (λ r. r.1 ≡ bytes.items) }
    ensures room { IfOk result (λ r. r.2 ≡ room) }
    ensures refused { IfErr result (λ e. e.0.items ≡ bytes.items) }
{
    let first = match Bytes::from_vec(bytes) {
        Ok(first) => first,
        Err(AllocFailed { value }) => return Err((value, AllocError)),
    };
    match first.clone() {
        Ok(second) => Ok((first, second, room)),
        Err(error) => {
            let _ = room.extend_from_slice(first.as_slice());
            Err((room, error))
        }
    }
}
