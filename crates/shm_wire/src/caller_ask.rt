//! A caller's ask of a site, under a tag of its own.
use crate::caller_tag::Tag;
use crate::display_envelope::KindWord;
use shm_lines::RequestWords;
use shm_model::{Asked, Kind, Request};
use shm_place::{PageId, SiteId};
use std::fmt;

/// A caller's question to a site: each event that a site can be made to have, a block of loads, a mapping, the state of a page or of what
/// is mapped, and the site's counts.
#[derive(Clone, Copy, Debug, PartialEq, Eq)]
pub enum Question {
    /// It waits for its right.
    Access(Asked),
    /// An access that doesn't wait for its right: it is answered at once.
    Try(Asked),
    /// `length` loads of a byte each, at `offset` and the offsets behind it: 1 to 4,096 of them, the last offset below 2 to the 32. Each
    /// load waits for its right; they are answered once.
    Read { at: u32, offset: u32, length: u32 },
    Begin(Request),
    Tick,
    Show(PageId),
    /// How much the site did, what waits, and what it passed over.
    Health,
    /// The page with this index in the attachment's segment is to be mapped into the memory of the site's machine. It waits for its right.
    Map { at: u32, index: u32, kind: Kind },
    /// What is mapped.
    Mappings,
}

/// A caller's ask of a site.
#[derive(Clone, Copy, Debug, PartialEq, Eq)]
pub struct Ask {
    pub site: SiteId,
    pub tag: Tag,
    pub asked: Question,
}

impl fmt::Display for Ask {
    ghost use Rattle.std.specs.Prelude.{Some};
    ghost use Rattle.shm_wire.specs.Asks as spelled;

    ghost output = { λ ask. Some (spelled.ask_line (spelled.ask_of ask)) };

    /// The ask's line, without a line feed.
    fn fmt<W: fmt::Write>(&self, f: &mut fmt::Formatter<W>) -> fmt::Result {
        let site = self.site.0;
        let tag = self.tag;
        let asked = self.asked;
        write!(f, "ask {site} {tag} {asked}")
    }
}

impl fmt::Display for Question {
    ghost use Rattle.std.specs.Prelude.{Some};
    ghost use Rattle.std.specs.List.{join_with_byte};
    ghost use Rattle.shm_wire.specs.Asks as spelled;

    ghost output = { λ question. Some (join_with_byte 32 (spelled.asked_words question)) };

    fn fmt<W: fmt::Write>(&self, f: &mut fmt::Formatter<W>) -> fmt::Result {
        match self {
            Question::Access(Asked::Load { at, offset }) => write!(f, "load {at} {offset}"),
            Question::Access(Asked::Store { at, offset, byte }) => {
                write!(f, "store {at} {offset} {byte}")
            }
            Question::Try(Asked::Load { at, offset }) => write!(f, "try-load {at} {offset}"),
            Question::Try(Asked::Store { at, offset, byte }) => {
                write!(f, "try-store {at} {offset} {byte}")
            }
            Question::Read { at, offset, length } => write!(f, "read {at} {offset} {length}"),
            Question::Begin(request) => write!(f, "{}", RequestWords(*request)),
            Question::Tick => write!(f, "tick"),
            Question::Show(page) => write!(f, "show {} {}", page.seg.0, page.index),
            Question::Health => write!(f, "health"),
            Question::Map { at, index, kind } => write!(f, "map {at} {index} {}", KindWord(*kind)),
            Question::Mappings => write!(f, "mappings"),
        }
    }
}
