//! The texts that may be notes: those that `shmdbg draw` takes as captions, on one line.
ghost use Rattle.std.specs.Prelude.{◌≡◌, ◌==◌, not};
ghost use Rattle.std.specs.List.{list_all};
ghost use Rattle.std.specs.Option.{option_map};
ghost use Rattle.std.specs.Str.{chars};
ghost use Rattle.shm_draw.specs.Captions as captions;
ghost use Rattle.shm_prompt.specs.Notes.{is_note, text_typed};

use shm_lines::split_at;

/// The most bytes of a note's text.
const MAX_NOTE_BYTES: usize = 200;

/// What stands behind the first blank.
pub(crate) fn text_behind_blank(typed: &[u8]) -> Option<&[u8]>
    ensures { option_map (λ text. text.now) result ≡ text_typed typed.now }
{
    let (_verb, text) = split_at(typed, b' ');
    text
}

/// Checks that these bytes may be a note.
pub(crate) fn may_be_note(bytes: &[u8]) -> bool
    ensures { result ≡ is_note bytes.now }
{
    if bytes.len() > MAX_NOTE_BYTES {
        return false;
    }
    if !is_on_one_line(bytes) {
        return false;
    }
    let Ok(text) = std::str::from_utf8(bytes) else {
        return false;
    };
    may_stand(text)
}

/// Checks that no byte is a line feed.
fn is_on_one_line(bytes: &[u8]) -> bool
    ensures { result ≡ list_all (λ byte. not (byte == 10)) bytes.now }
{
    bytes.iter().all(|byte| *byte != b'\n')
}

/// Checks that no character of the text is a control character.
fn may_stand(text: &str) -> bool
    ensures { result ≡ list_all captions.may_stand (chars text.now) }
{
    let mut rest = text.chars();
    'chars: while let Some(c) = rest.next() {
        if is_control(c) {
            return false;
        }
    }
    true
}

/// Checks whether this is a control character, or one of the two characters that no XML text has.
fn is_control(c: char) -> bool
    ensures { result ≡ captions.is_control c }
{
    let code = c as u32;
    code < 32 || code > 126 && code < 160 || code == 0xfffe || code == 0xffff
}
