use std::fmt;

/// The answer to a line that isn't an event.
#[derive(Clone, Copy, Debug)]
pub enum Notice {
    /// The sites stand.
    Ready,
    /// This many events stand after going back.
    Back(u64),
    /// Fewer events stand than were to be taken back.
    PastBeginning,
}

impl fmt::Display for Notice {
    ghost use Rattle.std.specs.Prelude.{Some};
    ghost use Rattle.shm_debug.specs.Notice.{notice_text};

    ghost output = { λ notice. Some (notice_text notice) };

    fn fmt<W: fmt::Write>(&self, f: &mut fmt::Formatter<W>) -> fmt::Result {
        match self {
            Notice::Ready => write!(f, "ready"),
            Notice::Back(left) => write!(f, "back {left}"),
            Notice::PastBeginning => write!(f, "refused 28"),
        }
    }
}
