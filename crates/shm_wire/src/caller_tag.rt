//! The tag under which a caller asks.
ghost use Rattle.std.specs.Prelude.{◌≡◌, ◌≤◌, take, true};
ghost use Rattle.std.specs.Char.{is_ascii_graphic};
ghost use Rattle.std.specs.List.{list_all};
ghost use Rattle.shm_wire.specs.Tag.{is_tag};

use std::{fmt, str};

/// How many bytes a tag has at most.
const MAX_TAG_BYTES: usize = 32;

/// A caller's own name for what it asks: 1 to 32 bytes of printable ASCII without the blank.
#[derive(Clone, Copy, Debug, PartialEq, Eq)]
pub struct Tag {
    bytes: [u8; MAX_TAG_BYTES],
    length: usize,
    ghost within: { length ≤ 32 },
    ghost proper: { is_tag (take length bytes) ≡ true },
}

impl Tag {
    ghost use Rattle.std.specs.Prelude.{option_map};
    ghost use Rattle.shm_wire.specs.Tag.{tag_of};
    ghost use Rattle.shm_wire.specs.TagOf.{tag_text};

    /// The tag that a word is, if it is one.
    pub fn new(word: &[u8]) -> Option<Tag>
        ensures { option_map tag_text result ≡ tag_of word.now }
    {
        if word.is_empty() || word.len() > MAX_TAG_BYTES || !is_graphic(word) {
            return None;
        }
        let mut bytes = [0; MAX_TAG_BYTES];
        bytes[..word.len()].copy_from_slice(word);
        Some(Tag {
            bytes,
            length: word.len(),
        })
    }

    #[tactic(auto, using(crate::proofs::TagWords::tag_is_utf8))]
    pub fn as_str(&self) -> &str
        ensures { result.now ≡ tag_text self.now }
    {
        let Ok(text) = str::from_utf8(&self.bytes[..self.length]) else {
            unreachable!();
        };
        text
    }
}

impl fmt::Display for Tag {
    ghost use Rattle.std.specs.Prelude.{Some};
    ghost use Rattle.shm_wire.specs.TagOf.{tag_text};

    ghost output = { λ tag. Some (tag_text tag) };

    fn fmt<W: fmt::Write>(&self, f: &mut fmt::Formatter<W>) -> fmt::Result {
        f.write_str(self.as_str())
    }
}

fn is_graphic(word: &[u8]) -> bool
    ensures { result ≡ list_all is_ascii_graphic word.now }
{
    word.iter().all(|byte| byte.is_ascii_graphic())
}
