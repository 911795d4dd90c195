//! A reader and a writer that take a few bytes a call, and of which one call fails.

use std::io::{self, ErrorKind, Read, Write};

/// Gives the bytes, so many a call at most.
#[derive(Drop)]
pub(super) struct Giver<'a> {
    pub(super) bytes: &'a [u8],
    pub(super) most: usize,
    /// The calls before the one that fails, if one does.
    pub(super) calls: Option<usize>,
    pub(super) kind: ErrorKind,
}

impl Read for Giver<'_> {
    fn read(&mut self, buf: &mut [u8]) -> io::Result<usize> {
        if fails_now(&mut self.calls) {
            return Err(io::Error::from(self.kind));
        }
        let room = buf.len().min(self.most);
        let count = room.min(self.bytes.len());
        buf[..count].copy_from_slice(&self.bytes[..count]);
        self.bytes = &self.bytes[count..];
        Ok(count)
    }
}

/// What a writer's call does that fails.
#[derive(Clone, Copy, Debug)]
pub(super) enum Failure {
    Answers(ErrorKind),
    TakesNothing,
}

/// Takes so many bytes a call at most.
#[derive(Drop)]
pub(super) struct Taker {
    pub(super) text: Vec<u8>,
    pub(super) most: usize,
    /// The calls before the one that fails, if one does.
    pub(super) calls: Option<usize>,
    pub(super) failure: Failure,
    /// The flushes before the one that fails, if one does.
    pub(super) flushes: Option<usize>,
}

impl Write for Taker {
    fn write(&mut self, buf: &[u8]) -> io::Result<usize> {
        if fails_now(&mut self.calls) {
            return match self.failure {
                Failure::Answers(kind) => Err(io::Error::from(kind)),
                Failure::TakesNothing => Ok(0),
            };
        }
        let count = buf.len().min(self.most);
        match self.text.extend_from_slice(&buf[..count]) {
            Ok(()) => Ok(count),
            Err(_) => Err(io::Error::from(ErrorKind::OutOfMemory)),
        }
    }

    fn flush(&mut self) -> io::Result<()> {
        if fails_now(&mut self.flushes) {
            return Err(io::Error::from(ErrorKind::Other));
        }
        Ok(())
    }
}

/// Counts a call. Whether it is the one that fails; no later one is.
fn fails_now(calls: &mut Option<usize>) -> bool {
    let Some(left) = *calls else {
        return false;
    };
    *calls = left.checked_sub(1);
    left == 0
}
