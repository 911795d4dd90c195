//! Reads a line word by word.
ghost use Rattle.std.specs.Prelude.{◌≤◌, ◌+◌, length, IfErr, IfOk};

use crate::hints::expected_word::{Expected, Word};
use crate::hints::hint::Hint;
use crate::hints::word_prefix::{is_whole, readable};

/// Finds where the word that begins there ends, if it is such a word; else where it goes wrong.
pub fn read_word(word: Word, line: &[u8], start: usize) -> Result<usize, Hint>
    requires { start ≤ length line.now }
    ensures ok { IfOk result (λ end. end ≤ length line.now) }
    ensures err { IfErr result (λ hint. hint.at ≤ length line.now) }
{
    let end = word_end(line, start);
    let bytes = &line[start..end];
    let count = readable(word, bytes);
    if count < bytes.len() || !is_whole(word, bytes) {
        return Err(Hint {
            at: start + count,
            expected: Expected::Word(word),
        });
    }
    Ok(end)
}

/// Finds where the line goes wrong behind a word that ends there, if these words are to follow.
pub fn first_fault(words: &[Word], line: &[u8], from: usize) -> Hint
    requires { from ≤ length line.now }
    ensures { result.at ≤ length line.now }
{
    let mut at = from;
    'words: for word in words {
        if at >= line.len() {
            return Hint {
                at,
                expected: Expected::After(*word),
            };
        }
        match read_word(*word, line, at + 1) {
            Ok(end) => at = end,
            Err(hint) => return hint,
        }
    }
    Hint {
        at,
        expected: Expected::End,
    }
}

/// Finds where the word that begins there ends.
fn word_end(line: &[u8], start: usize) -> usize
    requires { start ≤ length line.now }
    ensures from { start ≤ result }
    ensures within { result ≤ length line.now }
{
    match line[start..].iter().position(|byte| *byte == b' ') {
        Some(count) => start + count,
        None => line.len(),
    }
}
