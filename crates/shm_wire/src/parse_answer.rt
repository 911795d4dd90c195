//! How an answer's line is read.
ghost use Rattle.std.specs.Prelude.{◌≡◌, [], drop, option_map};
ghost use Rattle.std.specs.Option.{option_map_or};
ghost use Rattle.shm_lines.specs.Words.{words_of};
ghost use Rattle.shm_wire.specs.Answers.{tell_line_after, tell_line_of, is_text, read_tell_line, text_of, text_of_words};
ghost use Rattle.std.specs.Int.{is_in_range};

use crate::answer_line::TellLine;
use crate::caller_tag::Tag;
use shm_lines::{Words, split_at};
use shm_place::SiteId;
use std::str;

/// Reads a line, without its line feed, as an answer. `None` where it is none. Takes no memory.
pub fn parse_tell_line(line: &[u8]) -> Option<TellLine<'_>>
    ensures { option_map tell_line_of result ≡ read_tell_line line.now }
{
    let (verb, rest) = split_at(line, b' ');
    if verb != b"tell".as_slice() {
        return None;
    }
    answer(rest?)
}

/// Reads the answer, with its site and its tag.
fn answer(line: &[u8]) -> Option<TellLine<'_>>
    ensures { option_map tell_line_of result ≡ tell_line_after (words_of line.now) }
{
    let (site, words) = Words::of(line).number()?;
    let (word, _) = words.word()?;
    let tag = Tag::new(word)?;
    let text = text_after_two(line)?;
    Some(TellLine {
        site: SiteId(site),
        tag,
        text,
    })
}

#[tactic(auto, using(crate::proofs::AnswerWords::words_text))]
fn text_after_two(line: &[u8]) -> Option<&str>
    ensures { option_map (λ text. text.now) result ≡ text_of_words (drop 2 (words_of line.now)) }
{
    let rest = after_two(line)?;
    text(rest)
}

/// The bytes behind the first two words.
fn after_two(line: &[u8]) -> Option<&[u8]>
    ensures { option_map_or (λ rest. words_of rest.now) result [] ≡ drop 2 (words_of line.now) }
{
    let (_, rest) = split_at(line, b' ');
    let (_, rest) = split_at(rest?, b' ');
    rest
}

#[tactic(auto, using(crate::proofs::AnswerWords::text_is_utf8))]
fn text(bytes: &[u8]) -> Option<&str>
    ensures { option_map (λ text. text.now) result ≡ text_of bytes.now }
{
    if !is_printable(bytes) {
        return None;
    }
    let Ok(text) = str::from_utf8(bytes) else {
        unreachable!();
    };
    Some(text)
}

fn is_printable(bytes: &[u8]) -> bool
    ensures { result ≡ is_text bytes.now }
{
    bytes.iter().all(|byte| may_stand(*byte))
}

fn may_stand(byte: u8) -> bool
    ensures { result ≡ is_in_range 32 126 byte }
{
    byte >= b' ' && byte <= b'~'
}
