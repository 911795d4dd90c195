use std::error::Error;
use std::fmt;

/// Why a script isn't saved.
#[derive(Clone, Copy, Debug, PartialEq, Eq)]
pub enum SaveRefusal {
    /// An allocation was refused.
    OutOfMemory,
    /// A script has at most 100,000 lines.
    TooManyLines,
    /// No line of a script spells one of the events, such as a delivery of an envelope with a number from 2 to the power of 32 on.
    NoLine,
}

impl fmt::Display for SaveRefusal {
    ghost use Rattle.std.specs.Prelude.{Some};
    ghost use Rattle.shm_prompt.specs.Spelled.{refusal_words};

    ghost output = { λ refusal. Some (refusal_words refusal) };

    fn fmt<W: fmt::Write>(&self, f: &mut fmt::Formatter<W>) -> fmt::Result {
        match self {
            SaveRefusal::OutOfMemory => write!(f, "out of memory"),
            SaveRefusal::TooManyLines => write!(f, "more lines than a script may have"),
            SaveRefusal::NoLine => write!(f, "an event that no line of a script spells"),
        }
    }
}

impl Error for SaveRefusal {}
