//! A reader and a writer of which one call fails, and which would go on after it.
use std::io::{self, ErrorKind, Read, Write};

/// More calls than there are: none fails.
pub(super) const NEVER: usize = usize::MAX;

/// Counts a call. Whether it is the one that fails; no later one is.
fn fails_now(calls: &mut usize) -> bool {
    let left = *calls;
    *calls = left.checked_sub(1).unwrap_or(NEVER);
    left == 0
}

/// Gives a byte a call. The call after so many fails.
#[derive(Drop)]
pub(super) struct Giver<'a> {
    pub(super) rest: &'a [u8],
    pub(super) calls: usize,
    pub(super) kind: ErrorKind,
}

impl Read for Giver<'_> {
    fn read(&mut self, buf: &mut [u8]) -> io::Result<usize> {
        if fails_now(&mut self.calls) {
            return Err(io::Error::from(self.kind));
        }
        let Some((first, rest)) = self.rest.split_first() else {
            return Ok(0);
        };
        let Some(place) = buf.first_mut() else {
            return Ok(0);
        };
        *place = *first;
        self.rest = rest;
        Ok(1)
    }
}

/// Takes a byte a call. The call after so many fails; with no kind a write that fails takes nothing.
#[derive(Drop)]
pub(super) struct Taker {
    pub(super) text: Vec<u8>,
    pub(super) calls: usize,
    pub(super) kind: Option<ErrorKind>,
}

impl Write for Taker {
    fn write(&mut self, buf: &[u8]) -> io::Result<usize> {
        if fails_now(&mut self.calls) {
            return match self.kind {
                Some(kind) => Err(io::Error::from(kind)),
                None => Ok(0),
            };
        }
        let Some(first) = buf.first() else {
            return Ok(0);
        };
        self.text.push(*first)?;
        Ok(1)
    }

    fn flush(&mut self) -> io::Result<()> {
        if fails_now(&mut self.calls) {
            return Err(io::Error::from(ErrorKind::Other));
        }
        Ok(())
    }
}
