//! The numbers of all refusals, in one table. The system's errors have the numbers 1 to 7, and keep their order there.
ghost use Rattle.std.specs.Prelude.{◌≡◌, ℕ};
ghost use Rattle.shm_model.specs.Refusal.{errno_number, no_such_site, out_of_memory};

use crate::call::Errno;
use shm_place::NoSuchSite;
use std::alloc::AllocError;

/// The one class of mode bits that counts doesn't permit it (`shmget(2)`, `shmop(2)`, `shmctl(2)`, `EACCES`).
pub const EACCES: u8 = 1;

/// The key has a segment, and the call asked for a new one (`shmget(2)`, `EEXIST`).
pub const EEXIST: u8 = 2;

/// The segment was destroyed (`shmop(2)`, `EIDRM`).
pub const EIDRM: u8 = 3;

/// No such identifier, or a size that doesn't fit (`shmget(2)`, `EINVAL`).
pub const EINVAL: u8 = 4;

/// No segment has the key (`shmget(2)`, `ENOENT`).
pub const ENOENT: u8 = 5;

/// The home has as many segments as it may have (`shmget(2)`, `ENOSPC`).
pub const ENOSPC: u8 = 6;

/// Only the owner or the creator may (`shmctl(2)`, `EPERM`).
pub const EPERM: u8 = 7;

/// The site has a segment call that isn't answered yet.
pub const BUSY: u8 = 8;

/// Nothing is attached under the number.
pub const NO_ATTACHMENT: u8 = 9;

/// A store through an attachment that is only to read (`shmat(2)`, `SHM_RDONLY`).
pub const READ_ONLY: u8 = 10;

/// The segment's pages don't have the offset.
pub const OUT_OF_SEGMENT: u8 = 11;

/// The site has as many attachments as it may have.
pub const TOO_MANY_ATTACHMENTS: u8 = 12;

/// The greatest number of its kind was used.
pub const NUMBERS_USED_UP: u8 = 13;

/// There is no such site.
pub const NO_SUCH_SITE: u8 = 14;

/// The envelope was never sent, or is gone.
pub const NO_SUCH_MESSAGE: u8 = 15;

/// The envelope can't be for its site; or no segment can have the page; or a client met another site's box.
pub const FOREIGN: u8 = 16;

/// Memory was refused.
pub const OUT_OF_MEMORY: u8 = 17;

/// A line of a script or of a workload that may not stand there.
pub const BAD_LINE: u8 = 18;

/// A line has more than 200 bytes.
pub const LINE_TOO_LONG: u8 = 19;

/// There are bytes after the last line that is allowed.
pub const TOO_MANY_LINES: u8 = 20;

/// The reader answered an error.
pub const READ_FAULT: u8 = 21;

/// The writer answered an error, or took nothing.
pub const WRITE_FAULT: u8 = 22;

/// An audited step was handed an envelope that its sender's log doesn't have.
pub const UNSENT: u8 = 23;

/// An audited step's stamp isn't above one that it has to follow.
pub const STAMP_ORDER: u8 = 24;

/// An audited receipt names a step that isn't its caller's.
pub const FORGED: u8 = 25;

/// An access was tried as often as it is, and its site still waits for the page.
pub const GAVE_UP: u8 = 26;

/// A clock has no further stamp.
pub const CLOCK_END: u8 = 27;

/// Fewer events stand than `back` was to take off.
pub const PAST_BEGINNING: u8 = 28;

/// The system gave no thread.
pub const NO_THREAD: u8 = 29;

/// An audited step completed an access that no receipt names.
pub const UNTOLD: u8 = 30;

/// The logs aren't those of these sites, or the receipts aren't those of this workload.
pub const LOGS: u8 = 31;

/// A fault with its number in this table.
pub trait Numbered {
    ghost number_of: { Self → ℕ };

    /// The fault's number in this table.
    fn number(&self) -> u8
        ensures { result ≡ number_of self.now };
}

impl Numbered for Errno {
    ghost number_of = { errno_number };

    fn number(&self) -> u8 {
        match self {
            Errno::Eacces => EACCES,
            Errno::Eexist => EEXIST,
            Errno::Eidrm => EIDRM,
            Errno::Einval => EINVAL,
            Errno::Enoent => ENOENT,
            Errno::Enospc => ENOSPC,
            Errno::Eperm => EPERM,
        }
    }
}

impl Numbered for NoSuchSite {
    ghost number_of = { λ _. no_such_site };

    fn number(&self) -> u8 {
        NO_SUCH_SITE
    }
}

impl Numbered for AllocError {
    ghost number_of = { λ _. out_of_memory };

    fn number(&self) -> u8 {
        OUT_OF_MEMORY
    }
}
