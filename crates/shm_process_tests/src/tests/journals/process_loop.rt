//! Processes that keep a journal, of which a test holds everything around.
use shm_journal::{Failed, Journal, ProcessFault, Stop, serve};
use shm_place::{SiteId, Sites};
use shm_process::{Desk, Node, Opening, Start};
use shm_seal::Seal;
use shm_text::{read_up_to, write_whole};
use std::alloc::{AllocError, Global};
use std::io::{Read, Write};
use std::test::Fail;

/// A journal that notes all that is done through it, in order: `+` and what is appended, `!` where that is made durable, and `>` and what is
/// told. It reads at most so many bytes at once. After so many calls the next one fails. It is due to be made shorter always, or never.
#[derive(Drop)]
struct Rehearsal {
    done: Vec<u8>,
    at_once: usize,
    calls: usize,
    due: bool,
}

impl Rehearsal {
    fn note(&mut self, act: &[u8], text: &[u8]) -> Result<(), Failed> {
        if self.calls == 0 {
            return Err(Failed);
        }
        self.calls -= 1;
        if self.done.extend_from_slice(act).is_err() || self.done.extend_from_slice(text).is_err() {
            return Err(Failed);
        }
        Ok(())
    }
}

impl Journal for Rehearsal {
    ghost use Rattle.std.specs.Prelude.{None};

    ghost acts = { λ _. None };

    ghost due = { λ journal. journal.due };

    fn is_due(&self) -> bool {
        self.due
    }

    fn read<R: Read>(&mut self, reader: &mut R, chunk: &mut [u8]) -> Result<usize, Failed> {
        match self.note(b"", b"") {
            Ok(()) => {}
            Err(failed) => return Err(failed),
        }
        let most = self.at_once.max(1);
        match read_up_to(reader, chunk, most) {
            Ok(count) => Ok(count),
            Err(_) => Err(Failed),
        }
    }

    fn append(&mut self, text: &[u8]) -> Result<(), Failed> {
        self.note(b"+", text)
    }

    fn sync(&mut self) -> Result<(), Failed> {
        self.note(b"!", b"")
    }

    fn tell<W: Write>(&mut self, writer: &mut W, text: &[u8]) -> Result<(), Failed> {
        match self.note(b">", text) {
            Ok(()) => {}
            Err(failed) => return Err(failed),
        }
        match write_whole(writer, text) {
            Ok(()) => Ok(()),
            Err(_) => Err(Failed),
        }
    }
}

/// A site alone, where segment 0 has a page.
fn new_node(alloc: Global) -> Result<Node, AllocError> {
    let Ok(sites) = Sites::new(1) else {
        return Err(AllocError);
    };
    if sites.count() == 0 {
        return Err(AllocError);
    }
    Node::new(alloc, sites, SiteId(0), 1)
}

/// Its desk.
fn new_desk(alloc: Global) -> Result<Desk, AllocError> {
    Ok(Desk::new(alloc, new_node(alloc)?))
}

/// One that compares how it was begun.
fn comparing_desk(alloc: Global) -> Result<Desk, AllocError> {
    let opening = Opening {
        site: 0,
        sites: 1,
        pages: 1,
    };
    let start = Start {
        journal: 0,
        since: 0,
    };
    Desk::greeting(alloc, Seal::Bare, new_node(alloc)?, opening, start)
}

/// What became of a process.
#[derive(Drop)]
struct Ended {
    fault: Option<ProcessFault>,
    stop: Option<Stop>,
    /// What was done through its journal.
    done: Vec<u8>,
    told: Vec<u8>,
    errors: Vec<u8>,
}

/// What becomes of the process with this desk. It reads these lines, at most so many bytes at once. After so many calls the next one fails.
fn serve_lines(alloc: Global, desk: Desk, lines: &[u8], at_once: usize, calls: usize) -> Ended {
    let journal = Rehearsal {
        done: Vec::new(alloc),
        at_once,
        calls,
        due: false,
    };
    serve_with(alloc, desk, lines, journal)
}

/// What becomes of it with this journal.
fn serve_with(alloc: Global, desk: Desk, lines: &[u8], journal: Rehearsal) -> Ended {
    let mut desk = desk;
    let mut journal = journal;
    let mut lines = lines;
    let mut told = Vec::new(alloc);
    let mut errors = Vec::new(alloc);
    let served = serve(&mut desk, &mut lines, &mut told, &mut errors, &mut journal);
    let Rehearsal { done, .. } = journal;
    Ended {
        fault: served.err(),
        stop: served.ok(),
        done,
        told,
        errors,
    }
}

const LINES: &[u8] = b"ask 0 a store 0 5 7\nnot a line of ours\nask 0 b load 0 5\nask 0 c load 0 5";

const DONE: &[u8] =
    b"+step 1 ask 0 a store 0 5 7\nstep 2 ask 0 b load 0 5\n!>tell 0 a stored\ntell 0 b byte 7\n";

#[test]
fn steps_are_kept_and_then_told(rt: HostRuntime) -> Result<(), Fail> {
    let alloc = rt.alloc();
    let ended = serve_lines(alloc, new_desk(alloc)?, LINES, 8192, 100);
    assert!(rt; ended.fault.is_none());
    assert_eq!(rt; ended.done.as_slice(), DONE);
    assert_eq!(rt; ended.told.as_slice(), &DONE[54..]);
    Ok(())
}

/// Why the process ends where a call fails, and what was done before.
const FAULTS: [(ProcessFault, &[u8]); 5] = [
    (ProcessFault::ReadFault, b""),
    (ProcessFault::JournalFault, b""),
    (
        ProcessFault::JournalFault,
        b"+step 1 ask 0 a store 0 5 7\nstep 2 ask 0 b load 0 5\n",
    ),
    (
        ProcessFault::WriteFault,
        b"+step 1 ask 0 a store 0 5 7\nstep 2 ask 0 b load 0 5\n!",
    ),
    (ProcessFault::ReadFault, DONE),
];

/// The calls are read, append, sync, tell, read. Each fails in turn, and nothing comes behind it.
#[test]
fn each_call_fails_in_turn(rt: HostRuntime) -> Result<(), Fail> {
    let alloc = rt.alloc();
    for (calls, (fault, done)) in FAULTS.iter().enumerate() {
        let ended = serve_lines(alloc, new_desk(alloc)?, LINES, 8192, calls);
        assert!(rt; ended.fault == Some(*fault), "at {calls}");
        assert_eq!(rt; ended.done.as_slice(), *done);
    }
    Ok(())
}

/// Behind the first read comes an envelope of the site's own second step, which it doesn't have, and then an ask.
const LACKED: &[u8] = b"ask 0 a store 0 5 7\nenv 0 0 2 1 0 ask 0 0 1 read\nask 0 b load 0 5\n";

/// What came before is kept and told, and nothing after it.
#[test]
fn a_site_that_lacks_a_step_ends(rt: HostRuntime) -> Result<(), Fail> {
    let alloc = rt.alloc();
    let ended = serve_lines(alloc, new_desk(alloc)?, LACKED, 20, 100);
    assert!(rt; ended.fault == Some(ProcessFault::TooOld { clock: 2 }));
    let done = b"+step 1 ask 0 a store 0 5 7\n!>tell 0 a stored\n".as_slice();
    assert_eq!(rt; ended.done.as_slice(), done);
    Ok(())
}

const OTHERS: &[u8] =
    b"env 1 0 0 0 0 hello 2 1\nenv 2 0 0 0 0 hello 3 1\nenv 1 0 0 0 0 hello 2 1\n";

/// Two other sites were begun with other numbers. The first of them is warned of and answered, once; each read gives a part of a line.
#[test]
fn another_opening_is_warned_of_once(rt: HostRuntime) -> Result<(), Fail> {
    let alloc = rt.alloc();
    let ended = serve_lines(alloc, comparing_desk(alloc)?, OTHERS, 13, 100);
    assert!(rt; ended.fault.is_none());
    assert_eq!(rt;
        ended.told.as_slice(),
        b"env 0 1 0 0 0 hello 1 1\n".as_slice()
    );
    assert_eq!(rt;
        ended.errors.as_slice(),
        b"shmdbg: site 1 was begun with --sites 2 --preset 1, this one with --sites 1 --preset 1\n".as_slice()
    );
    Ok(())
}

/// What becomes of a process whose journal is due, as soon as one read gave a line's bytes.
fn serve_due(alloc: Global, desk: Desk, lines: &[u8], at_once: usize) -> Ended {
    let journal = Rehearsal {
        done: Vec::new(alloc),
        at_once,
        calls: 100,
        due: true,
    };
    serve_with(alloc, desk, lines, journal)
}

/// It stops behind the first line, once that is kept and told.
#[test]
fn a_due_journal_stops_a_site_at_rest(rt: HostRuntime) -> Result<(), Fail> {
    let alloc = rt.alloc();
    let ended = serve_due(alloc, new_desk(alloc)?, LINES, 20);
    assert!(rt; ended.stop == Some(Stop::Due));
    let done = b"+step 1 ask 0 a store 0 5 7\n!>tell 0 a stored\n".as_slice();
    assert_eq!(rt; ended.done.as_slice(), done);
    Ok(())
}

/// Site 1 of two, which has no copy.
fn asking_desk(alloc: Global) -> Result<Desk, AllocError> {
    let Ok(sites) = Sites::new(2) else {
        return Err(AllocError);
    };
    if sites.count() < 2 {
        return Err(AllocError);
    }
    Ok(Desk::new(alloc, Node::new(alloc, sites, SiteId(1), 1)?))
}

/// An ask waits to the end.
#[test]
fn a_due_journal_lets_an_ask_wait(rt: HostRuntime) -> Result<(), Fail> {
    let alloc = rt.alloc();
    let ended = serve_due(alloc, asking_desk(alloc)?, b"ask 1 a load 0 5\nend\n", 17);
    assert!(rt; ended.stop == Some(Stop::Ended));
    Ok(())
}
