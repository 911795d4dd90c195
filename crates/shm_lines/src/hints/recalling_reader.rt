//! A reader that remembers the lines that it gave last.
ghost use Rattle.std.specs.Prelude.{◌≤◌, length, IfSome};

use crate::hints::remembered_lines::KeptLines;
use std::io::{self, Read};

/// The most bytes that are read at once.
const BLOCK: usize = 8192;

/// A reader that gives what another gives, at most a block at once, and remembers the lines that it gave last: those of the last read that
/// gave any, and the one that was open before it. It takes some 8 KB, however much is read. Which line it recalls isn't proved.
#[derive(Drop)]
pub struct RecallingReader<R> {
    reader: R,
    kept: KeptLines,
}

impl<R: Read> RecallingReader<R> {
    pub fn new(reader: R) -> RecallingReader<R> {
        RecallingReader {
            reader,
            kept: KeptLines::new(),
        }
    }
}

impl<R> RecallingReader<R> {
    /// The first 256 bytes of the line of this number, from 1, without its line feed. `None`: it wasn't read, or is no longer kept.
    pub fn line(&self, number: u64) -> Option<&[u8]>
        ensures { IfSome result (λ line. length line.now ≤ 256) }
    {
        self.kept.line(number)
    }
}

impl<R: Read> Read for RecallingReader<R> {
    ghost remaining = { λ recalling. R.remaining recalling.reader };

    fn read(&mut self, buf: &mut [u8]) -> io::Result<usize> {
        let room = buf.len().min(BLOCK);
        match self.reader.read(&mut buf[..room]) {
            Ok(count) => {
                self.kept.keep(&buf[..count]);
                Ok(count)
            }
            Err(error) => Err(error),
        }
    }
}
