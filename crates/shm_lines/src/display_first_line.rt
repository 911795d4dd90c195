//! How a script's first line is spelled.
use shm_model::Opening;
use std::fmt;

/// The opening, as a script's first line spells it.
#[derive(Clone, Copy)]
pub struct First(pub Opening);

impl fmt::Display for First {
    ghost use Rattle.std.specs.Prelude.{Some};
    ghost use Rattle.std.specs.List.{join_with_byte};
    ghost use Rattle.shm_lines.specs.Spelling as spelled;

    ghost output = { λ first. Some (join_with_byte 32 (spelled.opening_words first.0)) };

    fn fmt<W: fmt::Write>(&self, f: &mut fmt::Formatter<W>) -> fmt::Result {
        let count = self.0.sites.count();
        match (self.0.preset, self.0.frames) {
            (None, None) => write!(f, "sites {count}"),
            (None, Some(frames)) => write!(f, "sites {count} frames {frames}"),
            (Some(size), None) => write!(f, "sites {count} preset {size}"),
            (Some(size), Some(frames)) => write!(f, "sites {count} preset {size} frames {frames}"),
        }
    }
}
