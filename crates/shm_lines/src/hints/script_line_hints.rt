//! The lines of a script.
ghost use Rattle.std.specs.Prelude.{◌≡◌, ◌≤◌, length, None, IfNone, IfSome, IsSome};
ghost use Rattle.shm_lines.specs.Line.{line_of};

use crate::hints::expected_word::Word;
use crate::hints::hint::Hint;
use crate::hints::read_words::{first_fault, read_word};
use crate::hints::words_after_verb::words_after;
use crate::parse_line;

/// Finds where a line of a script goes wrong. A right line has no hint.
///
/// Proved: which lines have a hint, and that it lies within the line or at its end. Not proved, only shown by examples in tests: that some
/// right line begins with the bytes before it, but none with these and the byte there; and that what is expected could stand there.
pub fn hint_of_script_line(line: &[u8]) -> Option<Hint>
    ensures right { IfNone result (IsSome (line_of line.now)) }
    ensures wrong { IfSome result (λ hint. line_of line.now ≡ None) }
    ensures within { IfSome result (λ hint. hint.at ≤ length line.now) }
{
    match parse_line(line) {
        Ok(_) => None,
        Err(_) => Some(fault_of_script_line(line)),
    }
}

/// Finds where a wrong line can't be read on.
fn fault_of_script_line(line: &[u8]) -> Hint
    ensures { result.at ≤ length line.now }
{
    match read_word(Word::Verb, line, 0) {
        Ok(end) => first_fault(words_after(&line[..end]), line, end),
        Err(hint) => hint,
    }
}
