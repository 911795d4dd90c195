use crate::mode_and_get_flags::{GetFlags, Mode};
use shm_place::{Key, SegId};

/// The caller: a user and its one group. No user is privileged.
#[derive(Clone, Copy, Debug, PartialEq, Eq)]
pub struct Cred {
    pub uid: u32,
    pub gid: u32,
}

/// Why a segment call was refused, numbered from 1 in this order (`shmget(2)`, `shmop(2)`, `shmctl(2)`).
#[derive(Clone, Copy, Debug, PartialEq, Eq)]
pub enum Errno {
    /// The one class of mode bits that counts doesn't permit it.
    Eacces,
    /// The key has a segment, and the call asked for a new one.
    Eexist,
    /// The segment was destroyed.
    Eidrm,
    /// No such identifier, or a size that doesn't fit.
    Einval,
    /// No segment has the key.
    Enoent,
    /// The home has as many segments as it may have.
    Enospc,
    /// Only the owner or the creator may.
    Eperm,
}

/// A segment call as it goes to its home (`shmget(2)`, `shmop(2)`, `shmctl(2)`). `size` is the size asked, in bytes.
#[derive(Clone, Copy, Debug, PartialEq, Eq)]
pub enum Op {
    Get {
        cred: Cred,
        key: Key,
        size: u32,
        mode: Mode,
        flags: GetFlags,
    },
    Attach {
        cred: Cred,
        id: SegId,
        ro: bool,
    },
    Detach {
        id: SegId,
    },
    Remove {
        cred: Cred,
        id: SegId,
    },
    Set {
        cred: Cred,
        id: SegId,
        uid: u32,
        gid: u32,
        mode: Mode,
    },
    Stat {
        cred: Cred,
        id: SegId,
    },
}

/// The reply to an attach: the segment's size in bytes, as asked when it was made, and whether the attachment is read-only.
#[derive(Clone, Copy, Debug, PartialEq, Eq)]
pub struct Attached {
    pub size: u32,
    pub ro: bool,
}

/// A segment's record (`shmctl(2)`, `IPC_STAT`). A marked segment has key 0.
#[derive(Clone, Copy, Debug, PartialEq, Eq)]
pub struct Stat {
    pub key: Key,
    pub uid: u32,
    pub gid: u32,
    pub cuid: u32,
    pub cgid: u32,
    pub mode: Mode,
    pub size: u32,
    pub nattch: u64,
    pub marked: bool,
}

/// The reply to a segment call.
#[derive(Clone, Copy, Debug, PartialEq, Eq)]
pub enum Reply {
    Id(SegId),
    Attached(Attached),
    Ok,
    Stat(Stat),
    Refused(Errno),
}

/// A segment call, as a caller begins it. A detach names the attachment, never the segment.
#[derive(Clone, Copy, Debug, PartialEq, Eq)]
pub enum Request {
    Op(Op),
    DetachAt(u32),
}
