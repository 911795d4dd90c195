ghost use Rattle.std.specs.Prelude.{⊤, [], ◌∷◌, codes, ℕ, ◌≡◌, ◌==◌, ◌<◌, Some, None, nat_lt, if◌then◌else◌};
ghost use Rattle.std.specs.Int.RustNames.{bit_and};

use bitflags::{Flag, Flags, bitflag_items};
use std::fmt;
use std::marker::Model;

/// Permissions by name: to read, write and execute, for the owner, the group and the others (`chmod(2)`). Execute permissions are kept and
/// have no use.
#[derive(Clone, Copy, Debug, PartialEq, Eq)]
pub struct Permissions(pub u32);

bitflag_items! {
    impl Permissions: u32 {
        const OWNER_READ = 0o400;
        const OWNER_WRITE = 0o200;
        const OWNER_EXECUTE = 0o100;
        const GROUP_READ = 0o040;
        const GROUP_WRITE = 0o020;
        const GROUP_EXECUTE = 0o010;
        const OTHERS_READ = 0o004;
        const OTHERS_WRITE = 0o002;
        const OTHERS_EXECUTE = 0o001;
    }
}

impl Flags for Permissions {
    type Bits = u32;

    ghost exact = { ⊤ };

    ghost table = { (codes "OWNER_READ", 0o400) ∷ (codes "OWNER_WRITE", 0o200) ∷ (codes "OWNER_EXECUTE", 0o100)
        ∷ (codes "GROUP_READ", 0o040) ∷ (codes "GROUP_WRITE", 0o020) ∷ (codes "GROUP_EXECUTE", 0o010)
        ∷ (codes "OTHERS_READ", 0o004) ∷ (codes "OTHERS_WRITE", 0o002) ∷ (codes "OTHERS_EXECUTE", 0o001) ∷ [] };

    ghost set_of = { λ permissions. permissions.0 };

    fn flags<'a>() -> &'a [Flag<Permissions>] {
        Permissions::FLAGS
    }

    fn bits(&self) -> u32 {
        self.0
    }

    fn from_bits_retain(bits: u32) -> Permissions {
        Permissions(bits)
    }
}

/// The mode of a segment (`shmget(2)`): permissions, and no other bit.
#[derive(Clone, Copy, Debug, PartialEq, Eq)]
pub struct Mode {
    permissions: Permissions,
}

impl Model for Mode {
    ghost Value = { ℕ };

    ghost view = { λ mode. mode.permissions.0 };

    ghost invariant = { λ mode. mode.permissions.0 < 512 };

    ghost inverse = { λ n. record { permissions = record { 0 = n } } };
}

impl Mode {
    /// The owner may read and write, and nobody else: octal 600.
    pub const OWNER_READ_WRITE: Mode = Mode {
        permissions: Permissions(0o600),
    };

    /// All may read and write: octal 666, the mode of the segment that a preset has.
    pub const ALL_READ_WRITE: Mode = Mode {
        permissions: Permissions(0o666),
    };

    /// The mode of these bits, or `None` where there are others than the nine.
    pub fn from_bits(bits: u32) -> Option<Mode>
        ensures { result ≡ (if nat_lt bits 512 then Some bits else None) }
    {
        if bits < 0o1000 {
            return Some(Mode {
                permissions: Permissions(bits),
            });
        }
        None
    }

    /// The nine bits, the owner's highest.
    pub fn bits(self) -> u32
        ensures bits { result ≡ self }
        ensures nine { result < 512 }
    {
        self.permissions.0
    }

    /// Checks that the mode gives all of these permissions.
    pub fn contains(self, permissions: Permissions) -> bool
        ensures { result ≡ (bit_and self permissions.0 == permissions.0) }
    {
        self.permissions.contains(permissions)
    }
}

/// The mode as three octal digits: the owner's, the group's and the others', as `chmod(1)` spells it.
impl fmt::Display for Mode {
    ghost use Rattle.shm_model.specs.Mode.{mode_word};

    ghost output = { λ mode. Some (mode_word mode) };

    fn fmt<W: fmt::Write>(&self, f: &mut fmt::Formatter<W>) -> fmt::Result {
        let bits = self.bits();
        let owner = bits / 64;
        let group = bits / 8 % 8;
        let others = bits % 8;
        write!(f, "{owner}{group}{others}")
    }
}

/// The flags of `get` (`shmget(2)`).
#[derive(Clone, Copy, Debug, PartialEq, Eq)]
pub struct GetFlags(pub u32);

bitflag_items! {
    impl GetFlags: u32 {
        const CREAT = 0o1000;
        const EXCL = 0o2000;
    }
}

impl Flags for GetFlags {
    type Bits = u32;

    ghost exact = { ⊤ };

    ghost table = { (codes "CREAT", 0o1000) ∷ (codes "EXCL", 0o2000) ∷ [] };

    ghost set_of = { λ flags. flags.0 };

    fn flags<'a>() -> &'a [Flag<GetFlags>] {
        GetFlags::FLAGS
    }

    fn bits(&self) -> u32 {
        self.0
    }

    fn from_bits_retain(bits: u32) -> GetFlags {
        GetFlags(bits)
    }
}
