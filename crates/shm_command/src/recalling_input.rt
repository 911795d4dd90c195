use shm_lines::RecallingReader;
use std::io::{self, Read};

/// A reader that remembers the lines that it gave last, so that a wrong one can be shown.
pub trait Recalls {
    ghost use Rattle.std.specs.Prelude.{◌≡◌, Bool};

    /// Whether a person types the lines, and sees what is answered.
    ghost typed: { Self → Bool };

    /// The beginning of the line of this number, from 1; `None`: it isn't to be shown, is no longer kept, or wasn't read.
    fn recall(&self, number: u64) -> Option<&[u8]>;

    /// Checks that a person types the lines, and sees what is answered.
    fn is_terminal(&self) -> bool
        ensures { result ≡ typed self.now };
}

/// Bytes in memory: none of their lines is shown, and nobody types them.
impl Recalls for &[u8] {
    ghost use Rattle.std.specs.Prelude.{false};

    ghost typed = { λ _. false };

    fn recall(&self, _number: u64) -> Option<&[u8]> {
        None
    }

    fn is_terminal(&self) -> bool {
        false
    }
}

/// The program's input.
#[derive(Drop)]
pub struct Source<R> {
    reader: RecallingReader<R>,
    shows: bool,
    is_terminal: bool,
}

impl<R: Read> Source<R> {
    /// The input of a reader, whose wrong lines are to be shown or not; a person types it, or none does.
    pub fn new(reader: R, shows: bool, is_terminal: bool) -> Source<R> {
        Source {
            reader: RecallingReader::new(reader),
            shows,
            is_terminal,
        }
    }
}

impl<R: Read> Read for Source<R> {
    fn read(&mut self, buf: &mut [u8]) -> io::Result<usize> {
        self.reader.read(buf)
    }
}

impl<R> Recalls for Source<R> {
    ghost typed = { λ source. source.is_terminal };

    fn recall(&self, number: u64) -> Option<&[u8]> {
        if self.shows {
            self.reader.line(number)
        } else {
            None
        }
    }

    fn is_terminal(&self) -> bool {
        self.is_terminal
    }
}
