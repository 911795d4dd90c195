//! An answer to a caller, under its tag.
use crate::caller_tag::Tag;
use base64::display::Base64Display;
use base64::engine::general_purpose::STANDARD;
use shm_place::SiteId;
use std::fmt;

/// An answer to a caller. The tag is that of its ask, and the text is printable ASCII, in which blanks may stand.
#[derive(Clone, Copy, Debug, PartialEq, Eq)]
pub struct TellLine<'a> {
    pub site: SiteId,
    pub tag: Tag,
    pub text: &'a str,
}

impl<'a> fmt::Display for TellLine<'a> {
    ghost use Rattle.std.specs.Prelude.{Some};
    ghost use Rattle.shm_wire.specs.Answers as spelled;

    ghost output = { λ answer. Some (spelled.tell_line (spelled.tell_line_of answer)) };

    /// The answer's line, without a line feed.
    fn fmt<W: fmt::Write>(&self, f: &mut fmt::Formatter<W>) -> fmt::Result {
        let site = self.site.0;
        let tag = self.tag;
        let text = self.text;
        write!(f, "tell {site} {tag} {text}")
    }
}

/// The text that answers a block: `block`, and the base64 of its bytes, of which the first is that at its offset.
#[derive(Clone, Copy, Debug, PartialEq, Eq)]
pub struct BlockText<'a>(pub &'a [u8]);

impl<'a> fmt::Display for BlockText<'a> {
    ghost use Rattle.std.specs.Prelude.{Some};
    ghost use Rattle.shm_wire.specs.Answers as spelled;

    ghost output = { λ text. Some (spelled.block_text text.0.now) };

    fn fmt<W: fmt::Write>(&self, f: &mut fmt::Formatter<W>) -> fmt::Result {
        let bytes = Base64Display::new(self.0, &STANDARD);
        write!(f, "block {bytes}")
    }
}
