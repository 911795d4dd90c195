use super::{expect, run_over};
use shm_command::{Recalls, run_words, script_fault};
use shm_debug::DebugFault;
use std::io::{self, ErrorKind, Read, Write};

const SCRIPT: &[u8] = b"sites 1 preset 1\nstore 0 0 7 9\nload 0 0 7\n";

const TEXT: &[u8] = b"1 ready\n2 stored\n3 byte 9\n";

const RUN: [&str; 6] = ["shmdbg", "run", "--sites", "1", "--seed", "1"];

const WORKLOAD: &[u8] = b"preset 1\nstore 0 0 7\nload 0 0\n";

const SITE: [&str; 8] = [
    "shmdbg", "site", "--sites", "1", "--me", "0", "--preset", "1",
];

const ASKS: &[u8] = b"ask 0 a store 0 5 7\nask 0 b load 0 5\n";

const TOLD: &[u8] = b"tell 0 a stored\ntell 0 b byte 7\n";

const REPORT: &[u8] = b"1 ready\n2 stored\n3 byte 7\naudit yes\n";

/// Gives one byte at a time, and then the end or an error.
#[derive(Drop)]
struct Trickle<'a> {
    rest: &'a [u8],
    end: Option<ErrorKind>,
}

impl Read for Trickle<'_> {
    fn read(&mut self, buf: &mut [u8]) -> io::Result<usize> {
        let Some((first, rest)) = self.rest.split_first() else {
            return match self.end {
                Some(kind) => Err(io::Error::from(kind)),
                None => Ok(0),
            };
        };
        let Some(place) = buf.first_mut() else {
            return Ok(0);
        };
        *place = *first;
        self.rest = rest;
        Ok(1)
    }
}

impl Recalls for Trickle<'_> {
    ghost use Rattle.std.specs.Prelude.{false};

    ghost typed = { λ _. false };

    fn recall(&self, _number: u64) -> Option<&[u8]> {
        None
    }

    fn is_terminal(&self) -> bool {
        false
    }
}

/// Takes one byte at a time while there is room, and then none, or answers an error.
#[derive(Drop)]
struct Narrow {
    taken: Vec<u8>,
    room: usize,
    end: Option<ErrorKind>,
}

impl Write for Narrow {
    fn write(&mut self, buf: &[u8]) -> io::Result<usize> {
        let Some(first) = buf.first() else {
            return Ok(0);
        };
        if self.taken.len() >= self.room {
            return match self.end {
                Some(kind) => Err(io::Error::from(kind)),
                None => Ok(0),
            };
        }
        self.taken.push(*first)?;
        Ok(1)
    }

    fn flush(&mut self) -> io::Result<()> {
        Ok(())
    }
}

#[test]
fn a_byte_at_a_time(rt: HostRuntime) {
    let mut reader = Trickle {
        rest: SCRIPT,
        end: None,
    };
    let mut out = Narrow {
        taken: Vec::new(rt.alloc()),
        room: 1000,
        end: None,
    };
    let mut errors = Vec::new(rt.alloc());
    let status = run_words(
        &rt,
        &["shmdbg", "replay"],
        &mut reader,
        &mut out,
        &mut errors,
    );
    assert_eq!(rt; status, 0);
    assert_eq!(rt; out.taken.as_slice(), TEXT);
    assert_eq!(rt; errors.as_slice(), b"".as_slice());
}

/// Reading fails before each byte of the script, and after the last; an interruption is a failure too.
#[test]
fn readers_that_fail(rt: HostRuntime) {
    for kind in [ErrorKind::Other, ErrorKind::Interrupted] {
        for end in 0..=SCRIPT.len() {
            let mut reader = Trickle {
                rest: &SCRIPT[..end],
                end: Some(kind),
            };
            let ran = run_over(&rt, &["shmdbg", "replay"], &mut reader);
            assert_eq!(rt; ran.status, 3);
            assert_eq!(rt; ran.errors.as_slice(), b"shmdbg: read fault\n".as_slice());
            assert!(rt; TEXT.starts_with(ran.out.as_slice()));
        }
    }
}

/// Writing fails before each byte of the text: by an error, by an interruption, and by taking nothing.
#[test]
fn writers_that_fail(rt: HostRuntime) {
    for end in [Some(ErrorKind::Other), Some(ErrorKind::Interrupted), None] {
        for room in 0..TEXT.len() {
            let mut reader = SCRIPT;
            let mut out = Narrow {
                taken: Vec::new(rt.alloc()),
                room,
                end,
            };
            let mut errors = Vec::new(rt.alloc());
            let words = ["shmdbg", "replay"];
            let status = run_words(&rt, &words, &mut reader, &mut out, &mut errors);
            assert_eq!(rt; status, 3);
            assert_eq!(rt; errors.as_slice(), b"shmdbg: write fault\n".as_slice());
            assert_eq!(rt; out.taken.as_slice(), &TEXT[..room]);
        }
    }
}

/// The same of a run, which reads its whole workload before it writes anything.
#[test]
fn runs_with_readers_that_fail(rt: HostRuntime) {
    for kind in [ErrorKind::Other, ErrorKind::Interrupted] {
        for end in 0..=WORKLOAD.len() {
            let mut reader = Trickle {
                rest: &WORKLOAD[..end],
                end: Some(kind),
            };
            let ran = run_over(&rt, &RUN, &mut reader);
            expect(&rt, &ran, 3, b"", b"shmdbg: read fault\n");
        }
    }
}

/// The same of a run's writer: before the first line, amid a line, and amid what the audit found.
#[test]
fn runs_with_writers_that_fail(rt: HostRuntime) {
    for end in [Some(ErrorKind::Other), Some(ErrorKind::Interrupted), None] {
        for room in [0, 12, 30] {
            let mut reader = WORKLOAD;
            let mut out = Narrow {
                taken: Vec::new(rt.alloc()),
                room,
                end,
            };
            let mut errors = Vec::new(rt.alloc());
            let status = run_words(&rt, &RUN, &mut reader, &mut out, &mut errors);
            assert_eq!(rt; status, 3);
            assert_eq!(rt; errors.as_slice(), b"shmdbg: write fault\n".as_slice());
            assert_eq!(rt; out.taken.len(), room);
            assert!(rt; REPORT.starts_with(out.taken.as_slice()));
        }
    }
}

/// The same of a site: what was asked before is told.
#[test]
fn sites_with_readers_that_fail(rt: HostRuntime) {
    for end in [0, 12, 30, ASKS.len()] {
        let mut reader = Trickle {
            rest: &ASKS[..end],
            end: Some(ErrorKind::Other),
        };
        let ran = run_over(&rt, &SITE, &mut reader);
        assert_eq!(rt; ran.status, 3);
        assert_eq!(rt; ran.errors.as_slice(), b"shmdbg: read fault\n".as_slice());
        assert!(rt; TOLD.starts_with(ran.out.as_slice()));
        assert_eq!(rt; end == ASKS.len(), ran.out.as_slice() == TOLD);
    }
}

/// The same of a site's writer.
#[test]
fn sites_with_writers_that_fail(rt: HostRuntime) {
    for end in [Some(ErrorKind::Other), None] {
        for room in [0, 7, 20] {
            let mut reader = ASKS;
            let mut out = Narrow {
                taken: Vec::new(rt.alloc()),
                room,
                end,
            };
            let mut errors = Vec::new(rt.alloc());
            let status = run_words(&rt, &SITE, &mut reader, &mut out, &mut errors);
            assert_eq!(rt; status, 3);
            assert_eq!(rt; errors.as_slice(), b"shmdbg: write fault\n".as_slice());
            assert_eq!(rt; out.taken.as_slice(), &TOLD[..room]);
        }
    }
}

/// A write fault comes before the script's own fault, whose line would be told after the text.
#[test]
fn write_fault_first(rt: HostRuntime) {
    let mut reader = b"sites 1 preset 1\nnonsense\n".as_slice();
    let mut out = Narrow {
        taken: Vec::new(rt.alloc()),
        room: 3,
        end: None,
    };
    let mut errors = Vec::new(rt.alloc());
    let status = run_words(
        &rt,
        &["shmdbg", "replay"],
        &mut reader,
        &mut out,
        &mut errors,
    );
    assert_eq!(rt; status, 3);
    assert_eq!(rt; errors.as_slice(), b"shmdbg: write fault\n".as_slice());
}

#[test]
fn standard_error_that_fails(rt: HostRuntime) {
    let mut errors = Narrow {
        taken: Vec::new(rt.alloc()),
        room: 0,
        end: Some(ErrorKind::Other),
    };
    let mut out = Vec::new(rt.alloc());
    let mut reader = b"nonsense\n".as_slice();
    let status = run_words(
        &rt,
        &["shmdbg", "replay"],
        &mut reader,
        &mut out,
        &mut errors,
    );
    assert_eq!(rt; status, 1);
    let status = run_words(
        &rt,
        &["shmdbg", "nonsense"],
        &mut reader,
        &mut out,
        &mut errors,
    );
    assert_eq!(rt; status, 2);
}

#[test]
fn out_of_memory(rt: HostRuntime) {
    let mut errors = Vec::new(rt.alloc());
    let status = script_fault(DebugFault::OutOfMemory, &SCRIPT, &mut errors);
    assert_eq!(rt; status, 3);
    assert_eq!(rt; errors.as_slice(), b"shmdbg: out of memory\n".as_slice());
}
