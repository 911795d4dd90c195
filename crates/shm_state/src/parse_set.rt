//! How a set of sites is read.
ghost use Rattle.std.specs.Prelude.{◌≡◌, length, map};
ghost use Rattle.std.specs.List.{list_all};
ghost use Rattle.shm_lines.specs.Words.{next_of};
ghost use Rattle.shm_state.specs.SetWord.{is_one, is_set, is_zero_or_one, set_of};

use shm_lines::Words;
use shm_place::SiteSet;

/// The next word as a set of sites, and those after it.
pub fn sites(words: Words<'_>) -> Option<(SiteSet, Words<'_>)>
    ensures { result ≡ next_of set_of words.entry }
{
    let (word, words) = words.word()?;
    let members = members(word)?;
    Some((members, words))
}

fn members(word: &[u8]) -> Option<SiteSet>
    ensures { result ≡ set_of word.now }
{
    if !is_set(word) {
        return None;
    }
    Some(SiteSet::restored(marked(word)))
}

/// Checks that the word has a digit, 0 or 1, for each of 16 sites.
fn is_set(word: &[u8]) -> bool
    ensures { result ≡ is_set word.now }
{
    word.len() == 16 && are_digits(word)
}

fn are_digits(word: &[u8]) -> bool
    ensures { result ≡ list_all is_zero_or_one word.now }
{
    word.iter().all(|byte| is_zero_or_one(*byte))
}

fn is_zero_or_one(byte: u8) -> bool
    ensures { result ≡ is_zero_or_one byte }
{
    byte == b'0' || byte == b'1'
}

/// The sites at which a 1 stands.
fn marked(word: &[u8]) -> [bool; 16]
    requires { length word.now ≡ 16 }
    ensures { result ≡ map is_one word.now }
{
    let mut members = [false; 16];
    'sites: for (site, byte) in word.iter().enumerate() {
        members[site] = *byte == b'1';
    }
    members
}
