ghost use Rattle.std.specs.Prelude.{◌≡◌};
ghost use Rattle.shm_model.specs.Permission.{is_owner, is_in_group, class_of, may_read, may_write, asks_to_read, asks_to_write, permits, may_get, may_attach, may_stat};
ghost use Rattle.shm_keys.specs.Class.{bits_of};

use crate::segment_record::Segment;
use shm_model::{Cred, Mode, Permissions};

/// A class of users. One alone counts for a caller (`shmget(2)`).
#[derive(Clone, Copy)]
enum Class {
    Owner,
    Group,
    Others,
}

impl Class {
    /// Checks that a mode lets the class read.
    fn may_read(self, mode: Mode) -> bool
        ensures { result ≡ may_read (bits_of self mode) }
    {
        match self {
            Class::Owner => mode.contains(Permissions::OWNER_READ),
            Class::Group => mode.contains(Permissions::GROUP_READ),
            Class::Others => mode.contains(Permissions::OTHERS_READ),
        }
    }

    /// Checks that a mode lets the class write.
    fn may_write(self, mode: Mode) -> bool
        ensures { result ≡ may_write (bits_of self mode) }
    {
        match self {
            Class::Owner => mode.contains(Permissions::OWNER_WRITE),
            Class::Group => mode.contains(Permissions::GROUP_WRITE),
            Class::Others => mode.contains(Permissions::OTHERS_WRITE),
        }
    }
}

/// Checks that a `get` of this mode asks to read.
fn asks_to_read(mode: Mode) -> bool
    ensures { result ≡ asks_to_read mode }
{
    Class::Owner.may_read(mode) || Class::Group.may_read(mode) || Class::Others.may_read(mode)
}

/// Checks that a `get` of this mode asks to write.
fn asks_to_write(mode: Mode) -> bool
    ensures { result ≡ asks_to_write mode }
{
    Class::Owner.may_write(mode) || Class::Group.may_write(mode) || Class::Others.may_write(mode)
}

impl Segment {
    /// Checks that the caller's user owns or made the segment.
    pub fn is_owner(&self, cred: Cred) -> bool
        ensures { result ≡ is_owner cred self.now }
    {
        cred.uid == self.uid || cred.uid == self.cuid
    }

    fn is_in_group(&self, cred: Cred) -> bool
        ensures { result ≡ is_in_group cred self.now }
    {
        cred.gid == self.gid || cred.gid == self.cgid
    }

    /// The one class that counts for the caller.
    fn class_of(&self, cred: Cred) -> Class
        ensures { bits_of result self.now.mode ≡ class_of cred self.now }
    {
        if self.is_owner(cred) {
            return Class::Owner;
        }
        if self.is_in_group(cred) {
            return Class::Group;
        }
        Class::Others
    }

    /// Checks that the caller's class permits what is asked.
    fn permits(&self, cred: Cred, reads: bool, writes: bool) -> bool
        ensures { result ≡ permits reads writes (class_of cred self.now) }
    {
        let class = self.class_of(cred);
        (!reads || class.may_read(self.mode)) && (!writes || class.may_write(self.mode))
    }

    /// Checks that the caller has the permission that a `get` with this mode asks for.
    pub fn may_get(&self, cred: Cred, mode: Mode) -> bool
        ensures { result ≡ may_get cred mode self.now }
    {
        self.permits(cred, asks_to_read(mode), asks_to_write(mode))
    }

    /// Checks that the caller may attach: only to read, or to write too.
    pub fn may_attach(&self, cred: Cred, ro: bool) -> bool
        ensures { result ≡ may_attach cred ro self.now }
    {
        self.permits(cred, true, !ro)
    }

    /// Checks that the caller may be told of the segment.
    pub fn may_stat(&self, cred: Cred) -> bool
        ensures { result ≡ may_stat cred self.now }
    {
        self.permits(cred, true, false)
    }
}
