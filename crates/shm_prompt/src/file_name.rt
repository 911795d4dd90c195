//! The name of a file, as it is typed behind `save`, `open` or `notes`.
ghost use Rattle.std.specs.Prelude.{◌≡◌, IfSome, Some};
ghost use Rattle.std.specs.List.{list_any};
ghost use Rattle.std.specs.Option.{option_map};
ghost use Rattle.shm_prompt.specs.Saves.{file_named, is_control, name_in, name_typed};

use shm_lines::Words;

/// The second word, where it is text that a terminal can be told.
pub(crate) fn file_name(typed: &[u8]) -> Option<&str>
    ensures named { option_map (λ name. name.now) result ≡ file_named typed.now }
    ensures typed { IfSome result (λ name. name_typed typed.now ≡ Some name.now) }
{
    let (_verb, words) = Words::of(typed).word()?;
    let (name, _others) = words.word()?;
    name_of(name)
}

/// The word as a name.
fn name_of(word: &[u8]) -> Option<&str>
    ensures named { option_map (λ name. name.now) result ≡ name_in word.now }
    ensures same { IfSome result (λ name. name.now ≡ word.now) }
{
    if has_control(word) {
        return None;
    }
    let Ok(name) = std::str::from_utf8(word) else {
        return None;
    };
    Some(name)
}

/// Checks that a byte of the word is a control character's.
fn has_control(word: &[u8]) -> bool
    ensures { result ≡ list_any is_control word.now }
{
    word.iter().any(|byte| *byte < b' ' || *byte == 127)
}
