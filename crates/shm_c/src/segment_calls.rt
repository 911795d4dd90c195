//! Segment calls, from numbers.
ghost use Rattle.std.specs.Prelude.{◌≡◌, None, Some};
ghost use Rattle.shm_c.specs.Calls.{call_request, caller};

use crate::numbers::CallNumbers;
use shm_model::{Cred, GetFlags, Mode, Op, Request};
use shm_place::{Key, SegId};

/// The user and group in the call.
fn caller(call: &CallNumbers) -> Cred
    ensures { result ≡ caller call.now }
{
    Cred {
        uid: call.uid,
        gid: call.gid,
    }
}

/// The request of these numbers, if they are one.
pub(crate) fn call_request(call: &CallNumbers) -> Option<Request>
    ensures { result ≡ call_request call.now }
{
    let cred = caller(call);
    let id = SegId(call.id);
    let op = match call.kind {
        1 => Op::Get {
            cred,
            key: Key(call.key),
            size: call.size,
            mode: Mode::from_bits(call.mode)?,
            flags: GetFlags(call.flags),
        },
        2 => Op::Attach {
            cred,
            id,
            ro: call.read_only,
        },
        3 => return Some(Request::DetachAt(call.attachment)),
        4 => Op::Remove { cred, id },
        5 => Op::Set {
            cred,
            id,
            uid: call.new_uid,
            gid: call.new_gid,
            mode: Mode::from_bits(call.mode)?,
        },
        6 => Op::Stat { cred, id },
        _ => return None,
    };
    Some(Request::Op(op))
}
