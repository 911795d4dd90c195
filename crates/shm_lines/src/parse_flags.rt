//! The words for mode bits, for flags, and for whether an attachment reads only.
ghost use Rattle.std.specs.Prelude.{◌≡◌, ◌-◌, IsTrue};
ghost use Rattle.std.specs.Char.{is_digit};
ghost use Rattle.shm_lines.specs.Words;

use shm_model::{GetFlags, Mode};

/// The mode that three octal digits stand for.
pub fn mode(word: &[u8]) -> Option<Mode>
    ensures { result ≡ Words.mode_of word.now }
{
    let [owner, group, others] = word else {
        return None;
    };
    if !is_octal(*owner) || !is_octal(*group) || !is_octal(*others) {
        return None;
    }
    Mode::from_bits(digit(*owner) * 64 + digit(*group) * 8 + digit(*others))
}

fn is_octal(byte: u8) -> bool
    ensures { result ≡ is_digit byte 8 }
{
    byte >= b'0' && byte <= b'7'
}

fn digit(byte: u8) -> u32
    requires { IsTrue (is_digit byte 8) }
    ensures { result ≡ byte - 48 }
{
    (byte - b'0') as u32
}

/// The flags that a word stands for: `-`, `c`, `x` or `cx`.
pub fn flags(word: &[u8]) -> Option<GetFlags>
    ensures { result ≡ Words.flags_of word.now }
{
    if word == b"-".as_slice() {
        return Some(GetFlags(0));
    }
    if word == b"c".as_slice() {
        return Some(GetFlags(0o1000));
    }
    if word == b"x".as_slice() {
        return Some(GetFlags(0o2000));
    }
    if word == b"cx".as_slice() {
        return Some(GetFlags(0o3000));
    }
    None
}

/// Reads `ro` or `rw`: `true` for a read-only attachment.
pub fn access(word: &[u8]) -> Option<bool>
    ensures { result ≡ Words.access_of word.now }
{
    if word == b"ro".as_slice() {
        return Some(true);
    }
    if word == b"rw".as_slice() {
        return Some(false);
    }
    None
}
