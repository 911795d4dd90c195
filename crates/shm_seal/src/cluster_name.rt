//! The name of a cluster.
ghost use Rattle.std.specs.Prelude.{◌≡◌, ◌≤◌, take, true};
ghost use Rattle.std.specs.Char.{is_ascii_graphic};
ghost use Rattle.std.specs.List.{list_all};
ghost use Rattle.shm_seal.specs.Name.{is_name};

use std::{fmt, str};

/// How many bytes a name has at most.
const MAX_NAME_BYTES: usize = 32;

/// The name of a cluster: 1 to 32 bytes of printable ASCII without the blank.
#[derive(Clone, Copy, Debug, PartialEq, Eq)]
pub struct ClusterName {
    bytes: [u8; MAX_NAME_BYTES],
    length: usize,
    ghost within: { length ≤ 32 },
    ghost proper: { is_name (take length bytes) ≡ true },
}

impl ClusterName {
    ghost use Rattle.std.specs.Prelude.{option_map};
    ghost use Rattle.shm_seal.specs.Name.{name_if_one};
    ghost use Rattle.shm_seal.specs.NameOf.{name_of};

    /// The name that a word is, if it is one.
    pub fn new(word: &[u8]) -> Option<ClusterName>
        ensures { option_map name_of result ≡ name_if_one word.now }
    {
        if word.is_empty() || word.len() > MAX_NAME_BYTES || !is_graphic(word) {
            return None;
        }
        let mut bytes = [0; MAX_NAME_BYTES];
        bytes[..word.len()].copy_from_slice(word);
        Some(ClusterName {
            bytes,
            length: word.len(),
        })
    }

    #[tactic(auto, using(crate::proofs::NameLemmas::name_is_utf8))]
    pub fn as_str(&self) -> &str
        ensures { result.now ≡ name_of self.now }
    {
        let Ok(text) = str::from_utf8(&self.bytes[..self.length]) else {
            unreachable!();
        };
        text
    }
}

impl fmt::Display for ClusterName {
    ghost use Rattle.std.specs.Prelude.{Some};
    ghost use Rattle.shm_seal.specs.NameOf.{name_of};

    ghost output = { λ name. Some (name_of name) };

    fn fmt<W: fmt::Write>(&self, f: &mut fmt::Formatter<W>) -> fmt::Result {
        f.write_str(self.as_str())
    }
}

fn is_graphic(word: &[u8]) -> bool
    ensures { result ≡ list_all is_ascii_graphic word.now }
{
    word.iter().all(|byte| byte.is_ascii_graphic())
}
