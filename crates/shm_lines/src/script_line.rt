//! A line of a script, as data, and where it is allowed.
use shm_model::{Event, Opening};
use shm_place::PageId;

/// A line of a script.
#[derive(Clone, Copy, Debug, PartialEq, Eq)]
pub enum Line {
    /// The first line: how the sites begin. A line that is read has `frames` only beside a `preset`.
    Sites(Opening),
    Event(Event),
    /// Shows each site's state of a page, and its manager's book.
    Show(PageId),
    /// Takes this many of the last events back.
    Back(u32),
}

impl Line {
    ghost use Rattle.std.specs.Prelude.{◌≡◌};
    ghost use Rattle.shm_lines.specs.Line as said;

    /// Checks that a script may have this line under this number, from 1: it begins with a `sites` line, and has no other.
    pub fn may_stand(&self, number: u64) -> bool
        ensures { result ≡ said.may_stand number self.now }
    {
        if number == 1 {
            return self.is_first();
        }
        !self.is_first()
    }

    /// Checks that the line says how the sites begin.
    pub fn is_first(&self) -> bool
        ensures { result ≡ said.is_first self.now }
    {
        match self {
            Line::Sites(_) => true,
            _ => false,
        }
    }

    /// Checks that the line is an event of the run: something that happens at a site or on the network.
    pub fn is_event(&self) -> bool
        ensures { result ≡ said.is_event self.now }
    {
        match self {
            Line::Event(_) => true,
            _ => false,
        }
    }
}
