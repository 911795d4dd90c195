//! How what a site has of a page is spelled.
use crate::part::EntryPart;
use base64::display::Base64Display;
use base64::engine::general_purpose::STANDARD;
use std::alloc::Allocator;
use std::fmt;

impl<A: Allocator + Copy> fmt::Display for EntryPart<A> {
    ghost use Rattle.std.specs.Prelude.{Some};
    ghost use Rattle.std.specs.List.{join_with_byte};
    ghost use Rattle.shm_state.specs.EntryWords.{entry_words};
    ghost use Rattle.shm_state.specs.PartOf.{entry_in};

    ghost output = { λ entry. Some (join_with_byte 32 (entry_words (entry_in entry))) };

    /// The words behind the page.
    fn fmt<W: fmt::Write>(&self, f: &mut fmt::Formatter<W>) -> fmt::Result {
        match self {
            EntryPart::Gone { number } => write!(f, "gone {number}"),
            EntryPart::Copy { number, bytes } => {
                let bytes = Base64Display::new(bytes.as_slice(), &STANDARD);
                write!(f, "copy {number} {bytes}")
            }
            EntryPart::OwnRead { number, bytes } => {
                let bytes = Base64Display::new(bytes.as_slice(), &STANDARD);
                write!(f, "own-read {number} {bytes}")
            }
            EntryPart::OwnWrite { number, bytes } => {
                let bytes = Base64Display::new(bytes.as_slice(), &STANDARD);
                write!(f, "own-write {number} {bytes}")
            }
            EntryPart::Handed { number, to, bytes } => {
                let to = to.0;
                let bytes = Base64Display::new(bytes.as_slice(), &STANDARD);
                write!(f, "handed {number} {to} {bytes}")
            }
        }
    }
}
