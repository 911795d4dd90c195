//! The words for numbers and for bytes, in decimal.
ghost use Rattle.std.specs.Prelude.{◌≡◌, ◌^◌, ◌≤◌, ◌==◌, ◌&&◌, not, ℕ, List, [], ◌∷◌, length, nat_lt, slice_index, Some, None, IfSome, if◌then◌else◌};
ghost use Rattle.std.specs.List.{list_all};
ghost use Rattle.std.specs.Option.{option_map_or};
ghost use Rattle.std.specs.Char.{is_ascii_digit};
ghost use Rattle.std.specs.Str.Parse.{digits_value};
ghost use Rattle.shm_lines.specs.Words;

/// The number below 2 to the power of 32 that a word stands for.
pub fn number(word: &[u8]) -> Option<u32>
    ensures { result ≡ Words.number_of word.now }
{
    let value = wide_number(word)?;
    u32::try_from(value).ok()
}

/// The number below 2 to the power of 64 that a word stands for.
pub fn wide_number(word: &[u8]) -> Option<u64>
    ensures { result ≡ Words.wide_of word.now }
{
    if word.is_empty() {
        return None;
    }
    if word.len() > 1 && word[0] == b'0' {
        return None;
    }
    value_of(word)
}

/// The number that a line's first word stands for, and the bytes behind the blank after it, if there is one: in one pass over the word. It
/// finds the number wherever there is one; `None` says nothing.
#[inline(always)]
pub(crate) fn front_number(line: &[u8]) -> Option<(u32, Option<&[u8]>)>
    ensures { IfSome result (λ r. (word : List ℕ) × (Words.words_of line.now ≡ word ∷ option_map_or (λ rest. Words.words_of rest.now) r.1 [])
        × (Words.number_of word ≡ Some r.0)) }
{
    let mut value: u64 = 0;
    'digits: for (at, digit) in line.iter().enumerate() {
        if !digit.is_ascii_digit() {
            return if *digit == b' ' && is_plain(line, at) {
                Some((value as u32, Some(&line[at + 1..])))
            } else {
                None
            };
        }
        value = value * 10 + (*digit - b'0') as u64;
        if value > u32::MAX as u64 {
            return None;
        }
    }
    if is_plain(line, line.len()) {
        Some((value as u32, None))
    } else {
        None
    }
}

/// Checks that this many digits at the line's front are a number: there is one, and the first isn't a 0 before others.
#[inline(always)]
fn is_plain(line: &[u8], digits: usize) -> bool
    requires { digits ≤ length line.now }
    ensures { result ≡ (nat_lt 0 digits && not (nat_lt 1 digits && (slice_index line.now 0 == 48))) }
{
    digits == 1 || digits > 1 && line[0] != b'0'
}

/// The value of a word of digits alone, if it is below 2 to the power of 64.
fn value_of(word: &[u8]) -> Option<u64>
    ensures { result ≡ (if list_all is_ascii_digit word.now then
        (if nat_lt (digits_value 10 word.now) (2 ^ 64) then Some (digits_value 10 word.now) else None) else None) }
{
    let mut value: u128 = 0;
    'digits: for byte in word {
        if !byte.is_ascii_digit() {
            return None;
        }
        value = value * 10 + (*byte - b'0') as u128;
        if value > u64::MAX as u128 {
            return None;
        }
    }
    Some(value as u64)
}
