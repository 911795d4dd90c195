//! Reports from a reader and to a writer of which one call fails.
use crate::tests::failing_streams::{Giver, NEVER, Taker};
use shm_place::Sites;
use shm_report::{ReportFault, report};
use std::alloc::Global;
use std::io::ErrorKind;
use std::process::Abort;
use std::sync::Wait;
use std::test::Fail;
use std::thread::Threads;

const WORKLOAD: &[u8] = b"preset 1\nstore 1 0 7\nload 1 0\n";

const REPORT: &[u8] = b"1 ready\n2 stored\n3 byte 7\naudit yes\n";

/// What a workload answers, and what it writes.
type Reported = (Result<(), ReportFault>, Vec<u8>);

/// What the workload answers over two sites, and what it writes, where the read after so many fails, and the write after so many.
fn reported_between<R: Threads + Wait + Copy + Send + Sync + 'static>(
    rt: &R,
    alloc: Global,
    reads: usize,
    writes: usize,
    kind: Option<ErrorKind>,
) -> Result<Reported, Fail> {
    let sites = Sites::new(2)?;
    let mut reader = Giver {
        rest: WORKLOAD,
        calls: reads,
        kind: kind.unwrap_or(ErrorKind::Other),
    };
    let mut writer = Taker {
        text: Vec::new(alloc),
        calls: writes,
        kind,
    };
    let answer = report(rt, alloc, sites, 1, &mut reader, &mut writer);
    Ok((answer, writer.text))
}

/// The workload has this fault, where the call of this number fails, and this was written.
fn expect(rt: &impl Abort, reported: Reported, fault: ReportFault, call: usize, text: &[u8]) {
    assert_eq!(rt; reported.0, Err(fault), "at call {call}");
    assert_eq!(rt; reported.1.as_slice(), text);
}

/// Each write fails in turn, and then the flush: that is the fault, and nothing is written after it.
#[test]
fn one_write_fails(rt: HostRuntime) -> Result<(), Fail> {
    for kind in [Some(ErrorKind::Other), Some(ErrorKind::Interrupted), None] {
        for writes in 0..=REPORT.len() {
            let reported = reported_between(&rt, rt.alloc(), NEVER, writes, kind)?;
            let text = &REPORT[..writes];
            expect(&rt, reported, ReportFault::WriteFault, writes, text);
        }
    }
    Ok(())
}

/// Each read fails in turn, the one that would find the end too: that is the fault, and nothing is written.
#[test]
fn one_read_fails(rt: HostRuntime) -> Result<(), Fail> {
    for kind in [ErrorKind::Other, ErrorKind::Interrupted] {
        for reads in 0..=WORKLOAD.len() {
            let reported = reported_between(&rt, rt.alloc(), reads, NEVER, Some(kind))?;
            expect(&rt, reported, ReportFault::ReadFault, reads, b"");
        }
    }
    Ok(())
}
