//! Reads a word as far as it goes.
ghost use Rattle.std.specs.Prelude.{◌≤◌, length};

use crate::Words;
use crate::hints::expected_word::Word;
use crate::hints::words_after_verb::VERBS;
use shm_place::{MAX_FRAMES, MAX_SITES, PAGES};

/// Counts the bytes that can be read as the front of such a word.
pub fn readable(word: Word, bytes: &[u8]) -> usize
    ensures { result ≤ length bytes.now }
{
    for at in 0..bytes.len() {
        if !starts(word, &bytes[..at + 1]) {
            return at;
        }
    }
    bytes.len()
}

/// Checks that the bytes are the front of such a word.
fn starts(word: Word, front: &[u8]) -> bool {
    match word {
        Word::Verb => VERBS.iter().any(|verb| verb.as_bytes().starts_with(front)),
        Word::AccessVerb => b"load".starts_with(front) || b"store".starts_with(front),
        Word::Mode => front.len() <= 3 && front.iter().all(|byte| *byte >= b'0' && *byte <= b'7'),
        Word::Flags => Words::of(front).flags().is_some(),
        Word::Access => front == b"r".as_slice() || Words::of(front).access().is_some(),
        Word::Preset => b"preset".starts_with(front),
        Word::Frames => b"frames".starts_with(front),
        other => is_whole(other, front),
    }
}

/// Checks that the bytes are such a word.
pub fn is_whole(word: Word, bytes: &[u8]) -> bool {
    match word {
        Word::Verb => VERBS.iter().any(|verb| verb.as_bytes() == bytes),
        Word::AccessVerb => bytes == b"load".as_slice() || bytes == b"store".as_slice(),
        Word::SiteBelow(limit) | Word::OffsetBelow(limit) => is_below(limit, bytes),
        Word::Byte => Words::of(bytes).byte().is_some(),
        Word::Mode => Words::of(bytes).mode().is_some(),
        Word::Flags => Words::of(bytes).flags().is_some(),
        Word::Access => Words::of(bytes).access().is_some(),
        Word::Preset => bytes == b"preset".as_slice(),
        Word::Frames => bytes == b"frames".as_slice(),
        Word::Sites => is_from_1_to(MAX_SITES, bytes),
        Word::Pages => is_from_1_to(PAGES, bytes),
        Word::Limit => is_from_1_to(MAX_FRAMES, bytes),
        _ => Words::of(bytes).number().is_some(),
    }
}

fn is_from_1_to(most: u32, bytes: &[u8]) -> bool {
    match Words::of(bytes).number() {
        Some((value, _)) => value >= 1 && value <= most,
        None => false,
    }
}

fn is_below(limit: u32, bytes: &[u8]) -> bool {
    match Words::of(bytes).number() {
        Some((value, _)) => value < limit,
        None => false,
    }
}
