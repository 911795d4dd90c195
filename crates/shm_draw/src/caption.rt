//! Captions: texts beside rows, and how notes say them.
ghost use Rattle.std.specs.Prelude.{◌≡◌, ◌++◌, ℕ, List, Ok, map, IfErr, IfOk};
ghost use Rattle.std.specs.List.{list_all};
ghost use Rattle.std.specs.Option.{option_map};
ghost use Rattle.std.specs.Str.{chars};
ghost use Rattle.shm_draw.specs.Captions;
ghost use Rattle.shm_draw.specs.Captions.{Beside};

use shm_lines::{split_at, wide_number};
use std::alloc::Allocator;
use thiserror::Error;

/// The most bytes that a note's text has.
const MAX_CAPTION_BYTES: usize = 200;

/// A text beside a row of the picture.
#[derive(Clone, Copy, Drop)]
pub struct Caption<'a> {
    /// The number that the picture shows before the row: that of the line in the script of what stands, whose first line is the opening.
    pub line: u64,
    /// What stands beside the row.
    pub text: &'a str,
}

/// Why notes have no captions. Lines count from 1.
#[derive(Clone, Copy, Debug, PartialEq, Eq, Error)]
pub enum CaptionFault {
    #[error("out of memory")]
    OutOfMemory,
    /// The line is no number, from 1 on and without leading zeros, a blank, and a text of at most 200 bytes in UTF-8 without control
    /// characters.
    #[error("line {0}: bad note")]
    BadNote(u64),
}

/// Reads the captions of a text that has one on each line: the row's number, a blank, and what stands beside it. Empty lines are let go.
pub fn parse_captions<'a, A: Allocator>(
    alloc: A,
    notes: &'a [u8],
) -> Result<Vec<Caption<'a>, A>, CaptionFault>
    ensures ok { IfOk result (λ captions. Captions.captions_in notes.now ≡ Ok (Captions.besides_of captions.items)) }
    ensures err { IfErr result (Captions.IsFaultIn (Captions.captions_in notes.now)) }
{
    let mut captions = Vec::new(alloc);
    let mut rest = notes;
    let mut number = 1u64;
    'lines: loop {
        let (note, others) = split_at(rest, b'\n');
        match keep_note(&mut captions, number, note) {
            Ok(()) => {}
            Err(fault) => return Err(fault),
        }
        let Some(others) = others else {
            return Ok(captions);
        };
        rest = others;
        number += 1;
    }
}

/// Keeps the caption of the line of this number, unless the line is empty.
fn keep_note<'a, A: Allocator>(
    captions: &mut Vec<Caption<'a>, A>,
    number: u64,
    note: &'a [u8],
) -> Result<(), CaptionFault>
    ensures ok { IfOk result (λ _. (besides : List Beside) × (Captions.of_note number note.now ≡ Ok besides)
        × (Captions.besides_of captions.new.items ≡ Captions.besides_of captions.old.items ++ besides)) }
    ensures err { IfErr result (Captions.IsFaultIn (Captions.of_note number note.now)) }
{
    if note.is_empty() {
        return Ok(());
    }
    let Some(caption) = caption_in(note) else {
        return Err(CaptionFault::BadNote(number));
    };
    match captions.push(caption) {
        Ok(()) => Ok(()),
        Err(_) => Err(CaptionFault::OutOfMemory),
    }
}

/// The caption that a note says.
fn caption_in(note: &[u8]) -> Option<Caption<'_>>
    ensures { option_map Captions.beside_of result ≡ Captions.beside_in note.now }
{
    let (number, bytes) = split_at(note, b' ');
    let bytes = bytes?;
    let line = wide_number(number)?;
    let text = text_in(bytes)?;
    if line == 0 {
        return None;
    }
    Some(Caption { line, text })
}

/// The bytes as a caption's text.
fn text_in(bytes: &[u8]) -> Option<&str>
    ensures { option_map (λ text. text.now) result ≡ Captions.text_in bytes.now }
{
    if bytes.len() > MAX_CAPTION_BYTES {
        return None;
    }
    let Ok(text) = str::from_utf8(bytes) else {
        return None;
    };
    if !may_stand(text) {
        return None;
    }
    Some(text)
}

/// Checks that no character of the text is a control character.
fn may_stand(text: &str) -> bool
    ensures { result ≡ list_all Captions.may_stand (chars text.now) }
{
    let mut rest = text.chars();
    'chars: while let Some(c) = rest.next() {
        if is_control(c) {
            return false;
        }
    }
    true
}

/// Checks whether this is a control character, or one of the two characters that no XML text has.
fn is_control(c: char) -> bool
    ensures { result ≡ Captions.is_control c }
{
    let code = c as u32;
    code < 32 || code > 126 && code < 160 || code == 0xfffe || code == 0xffff
}
