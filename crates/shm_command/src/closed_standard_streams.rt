//! The streams that a process begins with. One that is closed has a number that the next file would get: a journal would then be written to
//! as if it were the output.
use std::fs::{File, OpenOptions};
use std::io;
use std::os::fd::AsRawFd;
use std::rt::Files;

/// A stream that the program doesn't do without.
#[derive(Clone, Copy, Debug, PartialEq, Eq)]
pub(crate) enum Stream {
    Input,
    Output,
}

/// Files that have the numbers of streams that were closed; those that were open leave them others, which does no harm.
#[derive(Drop)]
pub(crate) struct Held {
    first: File,
    second: File,
    third: File,
}

impl Held {
    /// Opens `/dev/null` three times: each takes the least number that is free, so none of 0 to 2 is free then.
    pub(crate) fn new<R: Files<File = File>>(rt: &R) -> io::Result<Held> {
        Ok(Held {
            first: open_null(rt)?,
            second: open_null(rt)?,
            third: open_null(rt)?,
        })
    }

    /// The first of standard input and output that was closed.
    pub(crate) fn closed(&self) -> Option<Stream> {
        if self.has(0) {
            return Some(Stream::Input);
        }
        if self.has(1) {
            return Some(Stream::Output);
        }
        None
    }

    fn has(&self, number: i32) -> bool {
        let numbers = [
            self.first.as_raw_fd(),
            self.second.as_raw_fd(),
            self.third.as_raw_fd(),
        ];
        numbers.contains(&number)
    }
}

fn open_null<R: Files<File = File>>(rt: &R) -> io::Result<File> {
    OpenOptions::new()
        .read(true)
        .write(true)
        .open(rt, "/dev/null")
}
