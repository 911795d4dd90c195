//! The next words of a line, where a script has no such words.
ghost use Rattle.std.specs.Prelude.{◌≡◌};
ghost use Rattle.shm_lines.specs.Words.{next_of, wide_of};
ghost use Rattle.shm_wire.specs.Words as said;
ghost use Rattle.shm_wire.specs.Words.{kind_of, standing_of, errno_of};

use shm_lines::{Words, wide_number};
use shm_model::{Errno, Kind};

/// The next word as a number below 2 to the 64, and those after it.
pub fn wide(words: Words<'_>) -> Option<(u64, Words<'_>)>
    ensures { result ≡ next_of wide_of words.entry }
{
    let (word, words) = words.word()?;
    let value = wide_number(word)?;
    Some((value, words))
}

/// The next word as what a transaction gives, and those after it.
pub fn kind(words: Words<'_>) -> Option<(Kind, Words<'_>)>
    ensures { result ≡ next_of kind_of words.entry }
{
    let (word, words) = words.word()?;
    let value = kind_named(word)?;
    Some((value, words))
}

pub fn kind_named(word: &[u8]) -> Option<Kind>
    ensures { result ≡ kind_of word.now }
{
    if word == b"read".as_slice() {
        return Some(Kind::Read);
    }
    if word == b"write".as_slice() {
        return Some(Kind::Write);
    }
    None
}

/// Reads the word that says whether a segment is marked to be destroyed. Answers that, and the words after it.
pub fn standing(words: Words<'_>) -> Option<(bool, Words<'_>)>
    ensures { result ≡ next_of standing_of words.entry }
{
    let (word, words) = words.word()?;
    let value = standing_named(word)?;
    Some((value, words))
}

fn standing_named(word: &[u8]) -> Option<bool>
    ensures { result ≡ standing_of word.now }
{
    if word == b"marked".as_slice() {
        return Some(true);
    }
    if word == b"live".as_slice() {
        return Some(false);
    }
    None
}

/// The next word as a system's error, and those after it.
pub fn errno(words: Words<'_>) -> Option<(Errno, Words<'_>)>
    ensures { result ≡ next_of errno_of words.entry }
{
    let (word, words) = words.word()?;
    let value = errno_named(word)?;
    Some((value, words))
}

fn errno_named(word: &[u8]) -> Option<Errno>
    ensures { result ≡ errno_of word.now }
{
    if word == b"eacces".as_slice() {
        return Some(Errno::Eacces);
    }
    if word == b"eexist".as_slice() {
        return Some(Errno::Eexist);
    }
    if word == b"eidrm".as_slice() {
        return Some(Errno::Eidrm);
    }
    if word == b"einval".as_slice() {
        return Some(Errno::Einval);
    }
    if word == b"enoent".as_slice() {
        return Some(Errno::Enoent);
    }
    if word == b"enospc".as_slice() {
        return Some(Errno::Enospc);
    }
    if word == b"eperm".as_slice() {
        return Some(Errno::Eperm);
    }
    None
}

/// The value that was read, if no word is left.
pub fn if_ended<T: Drop>(value: T, words: Words<'_>) -> Option<T>
    ensures { result ≡ said.ended value words.entry }
{
    if !words.is_empty() {
        return None;
    }
    Some(value)
}
