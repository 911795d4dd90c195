//! How a line of a state is spelled: the one line that is read back as it.
use crate::state_line::{Ending, StateLine};
use shm_model::Kind;
use shm_wire::Mapping;
use std::alloc::Allocator;
use std::fmt;

impl<A: Allocator + Copy> fmt::Display for StateLine<A> {
    ghost use Rattle.std.specs.Prelude.{Some};
    ghost use Rattle.shm_journal.specs.StateLines.{state_line};
    ghost use Rattle.shm_journal.specs.StateOf.{state_line_in};

    ghost output = { λ line. Some (state_line (state_line_in line)) };

    /// The line, without a line feed.
    fn fmt<W: fmt::Write>(&self, f: &mut fmt::Formatter<W>) -> fmt::Result {
        match self {
            StateLine::Part(part) => write!(f, "{part}"),
            StateLine::Mapping(mapping) => write!(f, "state {}", MappedWords(*mapping)),
            StateLine::Ending(ending) => write!(f, "state {}", EndingWords(*ending)),
        }
    }
}

/// The words of a page that is mapped.
#[derive(Clone, Copy)]
struct MappedWords(Mapping);

impl fmt::Display for MappedWords {
    ghost use Rattle.std.specs.Prelude.{Some};
    ghost use Rattle.std.specs.List.{join_with_byte};
    ghost use Rattle.shm_journal.specs.StateLines.{mapped_words};

    ghost output = { λ words. Some (join_with_byte 32 (mapped_words words.0)) };

    fn fmt<W: fmt::Write>(&self, f: &mut fmt::Formatter<W>) -> fmt::Result {
        let at = self.0.at;
        let seg = self.0.page.seg.0;
        let index = self.0.page.index;
        match self.0.kind {
            Kind::Read => write!(f, "mapped {at} {seg} {index} read"),
            Kind::Write => write!(f, "mapped {at} {seg} {index} write"),
        }
    }
}

/// The words of a state's end.
#[derive(Clone, Copy)]
struct EndingWords(Ending);

impl fmt::Display for EndingWords {
    ghost use Rattle.std.specs.Prelude.{Some};
    ghost use Rattle.std.specs.List.{join_with_byte};
    ghost use Rattle.shm_journal.specs.StateLines.{ending_words};
    ghost use Rattle.shm_journal.specs.StateOf.{ending_in};

    ghost output = { λ words. Some (join_with_byte 32 (ending_words (ending_in words.0))) };

    fn fmt<W: fmt::Write>(&self, f: &mut fmt::Formatter<W>) -> fmt::Result {
        let clock = self.0.clock;
        let steps = self.0.steps;
        match self.0.caller {
            Some(caller) => write!(f, "clock {clock} {steps} {caller}"),
            None => write!(f, "clock {clock} {steps}"),
        }
    }
}
