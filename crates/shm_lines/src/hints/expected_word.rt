ghost use Rattle.std.specs.Prelude.{◌≡◌};
ghost use Rattle.shm_lines.specs.Hints.{limit_of, word_front};

use std::fmt;

/// The meaning of a word in a line.
#[derive(Clone, Copy, Debug, PartialEq, Eq)]
pub enum Word {
    Verb,
    Site,
    Attachment,
    Offset,
    Byte,
    Envelope,
    User,
    Group,
    Key,
    Size,
    Mode,
    Flags,
    Access,
    Segment,
    Index,
    /// How many events are taken back.
    Events,
    /// How many sites there are.
    Sites,
    /// The word `preset` itself.
    Preset,
    /// How many pages segment 0 has.
    Pages,
    /// The word `frames` itself.
    Frames,
    /// How many pages a site has as copies at most.
    Limit,
    /// The verb of a workload's line.
    AccessVerb,
    /// A site's number that is below this one.
    SiteBelow(u32),
    /// An offset that is below this one.
    OffsetBelow(u32),
}

/// What could stand where a line goes wrong.
#[derive(Clone, Copy, Debug, PartialEq, Eq)]
pub enum Expected {
    /// This word, or the rest of it.
    Word(Word),
    /// One blank, and this word behind it.
    After(Word),
    /// Nothing: the line is whole.
    End,
}

impl Word {
    /// What stands for it, up to its limit, if it has one.
    fn text(&self) -> &'static str
        ensures { result.now ≡ word_front self.now }
    {
        match self {
            Word::Verb => "a verb, such as load, store, deliver, tick or show",
            Word::Site => "a site's number: digits, with no zero before others",
            Word::Attachment => "an attachment's number: digits, with no zero before others",
            Word::Offset => "an offset: digits, with no zero before others",
            Word::Byte => "a byte: a number from 0 to 255",
            Word::Envelope => "an envelope's number: digits, with no zero before others",
            Word::User => "a user's number: digits, with no zero before others",
            Word::Group => "a group's number: digits, with no zero before others",
            Word::Key => "a key: digits, with no zero before others",
            Word::Size => "a size in bytes: digits, with no zero before others",
            Word::Mode => "a mode: three octal digits",
            Word::Flags => "flags: c, x, cx or -",
            Word::Access => "ro or rw",
            Word::Segment => "a segment's number: digits, with no zero before others",
            Word::Index => "a page's index: digits, with no zero before others",
            Word::Events => "how many events: digits, with no zero before others",
            Word::Sites => "how many sites: a number from 1 to 16",
            Word::Preset => "the word preset",
            Word::Pages => "how many pages: a number from 1 to 256",
            Word::Frames => "the word frames",
            Word::Limit => "how many frames: a number from 1 to 65536",
            Word::AccessVerb => "load or store",
            Word::SiteBelow(_) => "a site's number below ",
            Word::OffsetBelow(_) => "an offset below ",
        }
    }

    /// What it is below.
    fn limit(&self) -> Option<u32>
        ensures { result ≡ limit_of self.now }
    {
        match self {
            Word::SiteBelow(limit) | Word::OffsetBelow(limit) => Some(*limit),
            _ => None,
        }
    }
}

impl fmt::Display for Word {
    ghost use Rattle.std.specs.Prelude.{Some};
    ghost use Rattle.shm_lines.specs.Hints.{word_text};

    ghost output = { λ word. Some (word_text word) };

    fn fmt<W: fmt::Write>(&self, f: &mut fmt::Formatter<W>) -> fmt::Result {
        let text = self.text();
        match self.limit() {
            Some(limit) => write!(f, "{text}{limit}"),
            None => write!(f, "{text}"),
        }
    }
}

impl fmt::Display for Expected {
    ghost use Rattle.std.specs.Prelude.{Some};
    ghost use Rattle.shm_lines.specs.Hints.{expected_text};

    ghost output = { λ expected. Some (expected_text expected) };

    fn fmt<W: fmt::Write>(&self, f: &mut fmt::Formatter<W>) -> fmt::Result {
        match self {
            Expected::Word(word) => write!(f, "{word}"),
            Expected::After(word) => write!(f, "one blank, and {word}"),
            Expected::End => write!(f, "the end of the line"),
        }
    }
}
