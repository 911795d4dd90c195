use std::fmt;

/// A journal that was made shorter.
#[derive(Debug, PartialEq, Eq, Drop)]
pub struct Shorter {
    /// The name under which the whole journal is kept.
    pub kept: String,
    /// How many bytes the whole one has.
    pub was: u64,
    /// How many bytes the new one has.
    pub is: u64,
}

impl fmt::Display for Shorter {
    ghost use Rattle.std.specs.Prelude.{Some};
    ghost use Rattle.shm_command.specs.Shortening.{shorter_text};

    ghost output = { λ shorter. Some (shorter_text shorter) };

    /// A line for each.
    fn fmt<W: fmt::Write>(&self, f: &mut fmt::Formatter<W>) -> fmt::Result {
        write!(f, "kept {}\nwas {}\nis {}\n", self.kept, self.was, self.is)
    }
}
