//! Takes the words of a line one after another.
ghost use Rattle.std.specs.List.{slice_split};
ghost use Rattle.std.specs.Prelude.{◌≡◌, ◌==◌, ◌<◌, [], ◌∷◌, length, IfSome, IfNone};
ghost use Rattle.std.specs.Option.{option_map_or};
ghost use Rattle.shm_lines.specs.Words.{words_of, byte_of, mode_of, flags_of, access_of, next_word, next_of, next_number, next_cred, is_end, ended};

use crate::parse_flags::{access, flags, mode};
use crate::parse_number::{front_number, number};
use crate::script_line::Line;
use shm_model::{Cred, GetFlags, Mode};
use std::marker::Model;

/// The words of a line that are still to be read. One blank parts each from the next.
#[derive(Drop)]
pub struct Words<'a> {
    rest: Option<&'a [u8]>,
}

impl<'a> Model for Words<'a> {
    ghost use Rattle.std.specs.Prelude.{ℕ, List, []};
    ghost use Rattle.std.specs.Option.{option_map_or};
    ghost use Rattle.shm_lines.specs.Words.{words_of};

    ghost Value = { List (List ℕ) };

    ghost view = { λ words. option_map_or (λ rest. words_of rest.now) words.rest [] };
}

impl<'a> Words<'a> {
    /// All words of a line.
    #[inline(always)]
    pub fn of(line: &'a [u8]) -> Words<'a>
        ensures { result ≡ words_of line.now }
    {
        Words { rest: Some(line) }
    }

    /// The next word, and those after it.
    #[inline(always)]
    pub fn word(self) -> Option<(&'a [u8], Words<'a>)>
        ensures some { IfSome result (λ r. next_word self.entry ≡ Some (r.0.now, r.1)) }
        ensures none { IfNone result (next_word self.entry ≡ None) }
    {
        let rest = self.rest?;
        let (word, rest) = split_at(rest, b' ');
        Some((word, Words { rest }))
    }

    /// The next word as a number, and those after it.
    #[inline(always)]
    pub fn number(self) -> Option<(u32, Words<'a>)>
        ensures { result ≡ next_number self.entry }
    {
        if let Some(line) = self.rest
            && let Some((value, rest)) = front_number(line)
        {
            return Some((value, Words { rest }));
        }
        let (word, words) = self.word()?;
        let value = number(word)?;
        Some((value, words))
    }

    /// The next word as a byte, and those after it.
    #[inline(always)]
    pub fn byte(self) -> Option<(u8, Words<'a>)>
        ensures { result ≡ next_of byte_of self.entry }
    {
        let (value, words) = self.number()?;
        if value > 255 {
            return None;
        }
        Some((value as u8, words))
    }

    /// The next word as a mode, and those after it.
    pub fn mode(self) -> Option<(Mode, Words<'a>)>
        ensures { result ≡ next_of mode_of self.entry }
    {
        let (word, words) = self.word()?;
        let value = mode(word)?;
        Some((value, words))
    }

    /// The next word as flags, and those after it.
    pub fn flags(self) -> Option<(GetFlags, Words<'a>)>
        ensures { result ≡ next_of flags_of self.entry }
    {
        let (word, words) = self.word()?;
        let value = flags(word)?;
        Some((value, words))
    }

    /// The next word as `ro` (true) or `rw`, and those after it.
    pub fn access(self) -> Option<(bool, Words<'a>)>
        ensures { result ≡ next_of access_of self.entry }
    {
        let (word, words) = self.word()?;
        let value = access(word)?;
        Some((value, words))
    }

    /// The next two words as a user and its group, and those after them.
    pub fn cred(self) -> Option<(Cred, Words<'a>)>
        ensures { result ≡ next_cred self.entry }
    {
        let (uid, words) = self.number()?;
        let (gid, words) = words.number()?;
        Some((Cred { uid, gid }, words))
    }

    /// The line, if no word is left.
    #[inline(always)]
    pub fn if_closed(self, line: Line) -> Option<Line>
        ensures { result ≡ ended line self.entry }
    {
        if !self.is_empty() {
            return None;
        }
        Some(line)
    }

    /// Checks that no word is left.
    #[inline(always)]
    pub fn is_empty(&self) -> bool
        ensures { result ≡ is_end self.now }
    {
        match self.rest {
            None => true,
            Some(_) => false,
        }
    }
}

/// Splits at the first separator: the bytes before it, and those after it if there is one.
pub fn split_at(bytes: &[u8], separator: u8) -> (&[u8], Option<&[u8]>)
    ensures parts { slice_split (λ byte. byte == separator) bytes.now
        ≡ result.0.now ∷ option_map_or (λ rest. slice_split (λ byte. byte == separator) rest.now) result.1 [] }
    ensures shorter { IfSome result.1 (λ rest. length rest.now < length bytes.now) }
{
    for (at, byte) in bytes.iter().enumerate() {
        if *byte == separator {
            return (&bytes[..at], Some(&bytes[at + 1..]));
        }
    }
    (bytes, None)
}
