//! Runs over several sites that fail: their status and what is told of them.
use super::{expect, run_over};
use shm_command::{Source, run_words, workload_fault};
use shm_place::{SiteId, Sites};
use shm_report::ReportFault;
use shm_sites::AuditFault;
use std::io::{self, Write};
use std::test::Fail;

/// The words of a run over three sites.
const WORDS: [&str; 6] = ["shmdbg", "run", "--sites", "3", "--seed", "2"];

/// Takes nothing.
#[derive(Drop)]
struct Full;

impl Write for Full {
    fn write(&mut self, _buf: &[u8]) -> io::Result<usize> {
        Ok(0)
    }

    fn flush(&mut self) -> io::Result<()> {
        Ok(())
    }
}

/// A line that no workload of three sites has is told under its number, also behind lines of other sites; nothing is written.
#[test]
fn bad_lines_of_three_sites(rt: HostRuntime) {
    let cases: [(&[u8], &[u8]); 3] = [
        (b"preset 257\n", b"shmdbg: line 1: bad line\n"),
        (
            b"preset 1\nstore 0 0 1\nload 2 0\nload 3 0\n",
            b"shmdbg: line 4: bad line\n",
        ),
        (
            b"preset 1\nstore 0 0 1\nload 2 4096\nload 1 0\n",
            b"shmdbg: line 3: bad line\n",
        ),
    ];
    for (workload, errors) in cases {
        let mut reader = workload;
        let ran = run_over(&rt, &WORDS, &mut reader);
        expect(&rt, &ran, 1, b"", errors);
    }
}

/// What three sites did can't be written: that is told when all has run.
#[test]
fn three_sites_and_no_room(rt: HostRuntime) {
    let mut reader = b"preset 2\nstore 0 4096 1\nload 1 4096\nload 2 0\n".as_slice();
    let mut errors = Vec::new(rt.alloc());
    let status = run_words(&rt, &WORDS, &mut reader, &mut Full, &mut errors);
    assert_eq!(rt; status, 3);
    assert_eq!(rt; errors.as_slice(), b"shmdbg: write fault\n".as_slice());
    assert_eq!(rt; reader, b"".as_slice());
}

/// The logs have no folder: nothing is read, and nothing is run.
#[test]
fn three_sites_and_no_folder(rt: HostRuntime) {
    let words = [
        "shmdbg",
        "run",
        "--sites",
        "3",
        "--seed",
        "2",
        "--log",
        "no folder",
    ];
    let mut reader = b"preset 1\n".as_slice();
    let ran = run_over(&rt, &words, &mut reader);
    expect(
        &rt,
        &ran,
        3,
        b"",
        b"shmdbg: no folder/site-0.log: it can't be opened\n",
    );
    assert_eq!(rt; reader, b"preset 1\n".as_slice());
}

/// Wrong lines are shown where they are to be.
#[test]
fn wrong_lines_are_shown(rt: HostRuntime) {
    let cases: [(&[&str], &[u8], &[u8]); 2] = [
        (
            &["shmdbg", "replay"],
            b"sites 1 preset 1\nload 0 0x 4\n",
            b"shmdbg: line 2: bad line\nload 0 0x 4\n        ^ an attachment's number: ",
        ),
        (
            &WORDS,
            b"preset 1\nload 0 4 4\n",
            b"shmdbg: line 2: bad line\nload 0 4 4\n        ^ the end of the line\n",
        ),
    ];
    for (words, input, errors) in cases {
        let mut reader = Source::new(input, true, false);
        let ran = run_over(&rt, words, &mut reader);
        assert_eq!(rt; ran.status, 1);
        assert!(rt; ran.errors.as_slice().starts_with(errors));
    }
}

/// What a wrong line seems to be is told last.
#[test]
fn wrong_lines_are_named(rt: HostRuntime) {
    let replay: &[&str] = &["shmdbg", "replay"];
    let cases: [(&[&str], &[u8], &[u8]); 8] = [
        (replay, b"sites 1\n\n", b"there are no blank lines\n"),
        (replay, b"# mine\n", b"there are no comments\n"),
        (
            replay,
            b"sites 1\r\n",
            b"a line feed alone ends a line, without a carriage return\n",
        ),
        (
            replay,
            b"sites 1\ntick 0",
            b"a line feed ends the last line, too\n",
        ),
        (
            replay,
            b"preset 1\n",
            b"this is a workload's line, for `shmdbg run`\n",
        ),
        (
            replay,
            b"sites 1\nsites 2\n",
            b"`sites` begins a script and `preset` a workload, and nothing else does\n",
        ),
        (
            &WORDS,
            b"sites 1\n",
            b"this is a script's line, for `shmdbg replay`\n",
        ),
        (
            &WORDS,
            b"preset 1\nload 0 4096\n",
            b"the offset is beyond the segment, or no line feed ends the line\n",
        ),
    ];
    for (words, input, told) in cases {
        let mut reader = Source::new(input, true, false);
        let ran = run_over(&rt, words, &mut reader);
        assert_eq!(rt; ran.status, 1);
        assert!(rt; ran.errors.as_slice().ends_with(told));
    }
}

/// The step with which something is wrong: that of index 4 at site 3.
const SITE: SiteId = SiteId(3);

/// Why there is no report, the status that it has, and the line that is told of it.
const TOLD: [(ReportFault, u8, &[u8]); 13] = [
    (
        ReportFault::Audit(AuditFault::Unsent {
            site: SITE,
            index: 4,
        }),
        4,
        b"shmdbg: audit: unsent 3 4\n",
    ),
    (
        ReportFault::Audit(AuditFault::StampOrder {
            site: SITE,
            index: 4,
        }),
        4,
        b"shmdbg: audit: stamp order 3 4\n",
    ),
    (
        ReportFault::Audit(AuditFault::Forged {
            site: SITE,
            index: 4,
        }),
        4,
        b"shmdbg: audit: forged 3 4\n",
    ),
    (
        ReportFault::Audit(AuditFault::Untold {
            site: SITE,
            index: 4,
        }),
        4,
        b"shmdbg: audit: untold 3 4\n",
    ),
    (ReportFault::Logs, 4, b"shmdbg: audit: logs\n"),
    (ReportFault::GaveUp(5), 4, b"shmdbg: line 5: gave up\n"),
    (ReportFault::ClockEnd, 3, b"shmdbg: clock end\n"),
    (ReportFault::NoThread, 3, b"shmdbg: no thread\n"),
    (ReportFault::OutOfMemory, 3, b"shmdbg: out of memory\n"),
    (ReportFault::ReadFault, 3, b"shmdbg: read fault\n"),
    (ReportFault::WriteFault, 3, b"shmdbg: write fault\n"),
    (
        ReportFault::LineTooLong(5),
        1,
        b"shmdbg: line 5: too long\n",
    ),
    (ReportFault::TooManyLines, 1, b"shmdbg: too many lines\n"),
];

/// Each fault of a run has its status and its line.
#[test]
fn each_fault_is_told_in_a_line(rt: HostRuntime) -> Result<(), Fail> {
    let sites = Sites::new(4)?;
    let reader = b"preset 1\n".as_slice();
    'faults: for (fault, status, line) in TOLD {
        let mut errors = Vec::new(rt.alloc());
        assert_eq!(rt; workload_fault(fault, sites, &reader, &mut errors), status);
        assert_eq!(rt; errors.as_slice(), line);
    }
    Ok(())
}
