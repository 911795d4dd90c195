//! Tells a wrong line: of a script's line where it goes wrong, of another command how it is typed.
ghost use Rattle.std.specs.Prelude.{◌≡◌, ◌++◌, OnOk};
ghost use Rattle.std.specs.Option.{option_map};
ghost use Rattle.shm_prompt.specs.Hints as told;
ghost use Rattle.shm_prompt.specs.Hints.{TellsPlain, TellsWrong, verb_of};

use crate::plain_text::tell_plain;
use shm_lines::{Expected, Hint, Word, hint_of_script_line, split_at, write_hint};
use std::alloc::{AllocError, Allocator};

/// Told where the first word is no command.
const NO_COMMAND: &[u8] = b"expected a command: `help` lists them\n";

/// Tells what was expected in place of a line that is none.
pub(crate) fn tell_hint<A: Allocator + Copy>(
    out: &mut Vec<u8, A>,
    typed: &[u8],
) -> Result<(), AllocError>
    ensures { OnOk result (TellsWrong typed.now out.old.items out.new.items) }
{
    match form_of(verb_among(typed)) {
        Some(form) => tell_form(out, form),
        None => tell_place(out, typed),
    }
}

/// Tells where the line of a script goes wrong.
fn tell_place<A: Allocator + Copy>(out: &mut Vec<u8, A>, typed: &[u8]) -> Result<(), AllocError>
    ensures { OnOk result (TellsPlain out.old.items out.new.items) }
{
    let text = hint_text(*out.allocator(), typed)?;
    tell_plain(text.as_slice(), out)
}

fn hint_text<A: Allocator + Copy>(alloc: A, typed: &[u8]) -> Result<Vec<u8, A>, AllocError> {
    match hint_of_script_line(typed) {
        Some(hint) if hint.expected != Expected::Word(Word::Verb) => place_text(
            alloc, typed, &hint,
        ),
        _ => NO_COMMAND.to_vec(alloc),
    }
}

/// The first word.
fn verb_among(typed: &[u8]) -> &[u8]
    ensures { result.now ≡ verb_of typed.now }
{
    let (verb, _others) = split_at(typed, b' ');
    verb
}

/// The form of a command of the prompt that is no line of a script.
fn form_of(verb: &[u8]) -> Option<&'static str>
    ensures { option_map (λ form. form.now) result ≡ told.form_of verb.now }
{
    if verb == b"run".as_slice() {
        return Some("run, or run N with N from 0 to 4294967295, with no zero before other digits");
    }
    if verb == b"undo".as_slice() {
        return Some("undo");
    }
    if verb == b"help".as_slice() {
        return Some("help");
    }
    if verb == b"?".as_slice() {
        return Some("help");
    }
    if verb == b"quit".as_slice() {
        return Some("quit");
    }
    if verb == b"exit".as_slice() {
        return Some("quit");
    }
    shown_form_of(verb)
}

/// The form of a command that shows a table, or keeps something.
fn shown_form_of(verb: &[u8]) -> Option<&'static str>
    ensures { option_map (λ form. form.now) result ≡ told.shown_form_of verb.now }
{
    if verb == b"flight".as_slice() {
        return Some("flight");
    }
    if verb == b"book".as_slice() {
        return Some("book SEGMENT PAGE");
    }
    if verb == b"segments".as_slice() {
        return Some("segments");
    }
    kept_form_of(verb)
}

/// The form of a command that keeps something: a script in a file, or a note.
fn kept_form_of(verb: &[u8]) -> Option<&'static str>
    ensures { option_map (λ form. form.now) result ≡ told.kept_form_of verb.now }
{
    if verb == b"save".as_slice() {
        return Some("save FILE, where FILE is one word");
    }
    if verb == b"open".as_slice() {
        return Some("open FILE, where FILE is one word");
    }
    if verb == b"note".as_slice() {
        return Some("note TEXT");
    }
    if verb == b"notes".as_slice() {
        return Some("notes FILE, where FILE is one word");
    }
    None
}

fn tell_form<A: Allocator + Copy>(out: &mut Vec<u8, A>, form: &str) -> Result<(), AllocError>
    ensures { OnOk result (out.new.items ≡ out.old.items ++ told.form_text form.now) }
{
    let text = format!(in *out.allocator(); "expected: {form}\n")?;
    out.extend_from_slice(text.as_bytes())
}

/// The line, and below it what could stand where it goes wrong.
fn place_text<A: Allocator + Copy>(
    alloc: A,
    typed: &[u8],
    hint: &Hint,
) -> Result<Vec<u8, A>, AllocError> {
    let mut text = Vec::new(alloc);
    match write_hint(&mut text, typed, hint) {
        Ok(()) => Ok(text),
        Err(_) => Err(AllocError),
    }
}
