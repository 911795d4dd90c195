//! The words for flags, and for whether an attachment reads only.
use shm_model::GetFlags;
use std::fmt;

/// The flags of `get` as a word: `c` makes the segment (`IPC_CREAT`), `x` wants a new one (`IPC_EXCL`), `-` is neither (`shmget(2)`).
#[derive(Clone, Copy)]
pub struct FlagsWord(pub GetFlags);

impl fmt::Display for FlagsWord {
    ghost use Rattle.std.specs.Prelude.{Some};
    ghost use Rattle.shm_lines.specs.Words as spelled;

    ghost output = { λ word. Some (spelled.flags_word word.0) };

    fn fmt<W: fmt::Write>(&self, f: &mut fmt::Formatter<W>) -> fmt::Result {
        let flags = self.0;
        if flags.0 == 0 {
            return write!(f, "-");
        }
        if flags.0 == 0o1000 {
            return write!(f, "c");
        }
        if flags.0 == 0o2000 {
            return write!(f, "x");
        }
        write!(f, "cx")
    }
}

/// How an attachment may be used, as a word: `ro` to read only (`shmat(2)`, `SHM_RDONLY`), else `rw`.
#[derive(Clone, Copy)]
pub struct AccessWord(pub bool);

impl fmt::Display for AccessWord {
    ghost use Rattle.std.specs.Prelude.{Some};
    ghost use Rattle.shm_lines.specs.Words as spelled;

    ghost output = { λ word. Some (spelled.access_word word.0) };

    fn fmt<W: fmt::Write>(&self, f: &mut fmt::Formatter<W>) -> fmt::Result {
        if self.0 {
            return write!(f, "ro");
        }
        write!(f, "rw")
    }
}
