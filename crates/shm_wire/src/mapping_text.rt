//! The texts that tell a site's machine of mapped pages.
use crate::display_envelope::KindWord;
use base64::display::Base64Display;
use base64::engine::general_purpose::STANDARD;
use shm_model::Kind;
use shm_place::PageId;
use std::fmt;

/// A page that is mapped into the memory of the site's machine, and the attachment through which it was.
#[derive(Clone, Copy, Debug, PartialEq, Eq)]
pub struct Mapping {
    pub at: u32,
    pub page: PageId,
    pub kind: Kind,
}

/// The text that answers a map with a page's bytes: `mapped`, and their base64.
#[derive(Clone, Copy, Debug, PartialEq, Eq)]
pub struct MappedText<'a>(pub &'a [u8]);

impl<'a> fmt::Display for MappedText<'a> {
    ghost use Rattle.std.specs.Prelude.{Some};
    ghost use Rattle.shm_wire.specs.MappingTexts as spelled;

    ghost output = { λ text. Some (spelled.mapped_text text.0.now) };

    fn fmt<W: fmt::Write>(&self, f: &mut fmt::Formatter<W>) -> fmt::Result {
        let bytes = Base64Display::new(self.0, &STANDARD);
        write!(f, "mapped {bytes}")
    }
}

/// The text that tells what is mapped: `mappings`, and for each page its attachment, its index, and `read` or `write`.
#[derive(Clone, Copy, Debug, PartialEq, Eq)]
pub struct MappingsText<'a>(pub &'a [Mapping]);

impl<'a> fmt::Display for MappingsText<'a> {
    ghost use Rattle.std.specs.Prelude.{Some};
    ghost use Rattle.shm_wire.specs.MappingTexts as spelled;

    ghost output = { λ text. Some (spelled.mappings_text text.0.now) };

    fn fmt<W: fmt::Write>(&self, f: &mut fmt::Formatter<W>) -> fmt::Result {
        write!(f, "mappings")?;
        'mappings: for mapping in self.0 {
            let at = mapping.at;
            let index = mapping.page.index;
            write!(f, " {at} {index} {}", KindWord(mapping.kind))?;
        }
        Ok(())
    }
}

/// The text that asks the machine to give a page up so far: `revoke`, its segment and index, and what may stay mapped, `none` or `read`.
#[derive(Clone, Copy, Debug, PartialEq, Eq)]
pub struct RevokeText {
    pub page: PageId,
    pub keeps: Option<Kind>,
}

impl fmt::Display for RevokeText {
    ghost use Rattle.std.specs.Prelude.{Some};
    ghost use Rattle.shm_wire.specs.MappingTexts as spelled;

    ghost output = { λ text. Some (spelled.revoke_text text.page text.keeps) };

    fn fmt<W: fmt::Write>(&self, f: &mut fmt::Formatter<W>) -> fmt::Result {
        let seg = self.page.seg.0;
        let index = self.page.index;
        match self.keeps {
            None => write!(f, "revoke {seg} {index} none"),
            Some(kind) => write!(f, "revoke {seg} {index} {}", KindWord(kind)),
        }
    }
}
