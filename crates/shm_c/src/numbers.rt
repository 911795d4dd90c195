//! What crosses to C, as numbers.
use shm_model::Answer;

/// What became of an event.
#[derive(Clone, Copy)]
pub enum Outcome {
    /// It was made, and answered so.
    Made(Answer),
    /// Memory was refused.
    NoMemory,
    /// The handle is empty.
    NoWorld,
}

/// An answer. `kind` is 1 for a byte, 2 stored, 3 a fault, 4 waiting, 5 a call that began, 6 a call that ended, 7 took, 8 dropped,
/// 9 refused, 10 memory was refused, 11 an empty handle, 12 no segment call has these numbers. `value` is the byte, or the refusal's
/// number; `number` the segment call's.
#[repr(C)]
#[derive(Clone, Copy)]
pub struct AnswerNumbers {
    pub kind: u32,
    pub value: u32,
    pub number: u64,
}

/// The reply to a segment call that ended. `kind` is 0 for none, 1 an identifier, 2 attached, 3 done, 4 the segment's record, 5 refused.
#[repr(C)]
#[derive(Clone, Copy)]
pub struct ReplyNumbers {
    pub kind: u32,
    pub id: u32,
    pub size: u32,
    pub read_only: bool,
    pub has_attachment: bool,
    pub attachment: u32,
    pub errno: u32,
    pub key: u32,
    pub uid: u32,
    pub gid: u32,
    pub cuid: u32,
    pub cgid: u32,
    pub mode: u32,
    pub marked: bool,
    pub attaches: u64,
}

/// A segment call. `kind` is 1 to get, 2 to attach, 3 to detach, 4 to remove, 5 to set, 6 for the segment's record.
#[repr(C)]
#[derive(Clone, Copy)]
pub struct CallNumbers {
    pub kind: u32,
    pub uid: u32,
    pub gid: u32,
    pub key: u32,
    pub id: u32,
    pub size: u32,
    pub mode: u32,
    pub flags: u32,
    pub new_uid: u32,
    pub new_gid: u32,
    pub attachment: u32,
    pub read_only: bool,
}

/// An envelope. `kind` is 0 for none, 1 Ask, 2 Cleared, 3 Confirm, 4 Clear, 5 Hand, 6 Page, 7 a segment call, 8 its reply, 9 Purge,
/// 10 Purged. `number` is that of the transaction, the request or the segment call.
#[repr(C)]
#[derive(Clone, Copy)]
pub struct EnvelopeNumbers {
    pub kind: u32,
    pub from: u32,
    pub to: u32,
    pub seg: u32,
    pub index: u32,
    pub number: u64,
    pub writes: bool,
    pub hand_to: u32,
}

/// A page as a site holds it. `state` is 0 for Nil, 1 Copy, 2 OwnRead, 3 OwnWrite, 4 Handed, 5 Purged, and 6 where there is no world, no
/// such site or no such page. `seen` is the greatest transaction number that the site met there.
#[repr(C)]
#[derive(Clone, Copy)]
pub struct ShownNumbers {
    pub state: u32,
    pub seen: u64,
}
