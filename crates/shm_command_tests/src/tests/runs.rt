use super::{Ran, expect, run_over};
use shm_command::Lock;
use std::rt::{Clock, Files};
use std::sync::Wait;
use std::test::Fail;
use std::thread::Threads;

/// Runs a workload that lies in memory, on one site, under the greatest seed.
fn run_bytes<R: AllocGlobal + Clock + Files + Threads + Wait + Copy + Send + Sync + 'static>(
    rt: &R,
    workload: &[u8],
) -> Ran
where
    R::File: Lock,
{
    let mut reader = workload;
    let words = ["shmdbg", "run", "--sites", "1", "--seed", "4294967295"];
    run_over(rt, &words, &mut reader)
}

#[test]
fn what_one_site_stores_it_loads(rt: HostRuntime) {
    'seeds: for seed in ["0", "1", "4294967295"] {
        let mut reader = b"preset 1\nstore 0 0 7\nload 0 0\n".as_slice();
        let words = ["shmdbg", "run", "--sites", "1", "--seed", seed];
        let ran = run_over(&rt, &words, &mut reader);
        let text = b"1 ready\n2 stored\n3 byte 7\naudit yes\n";
        expect(&rt, &ran, 0, text, b"");
    }
}

/// A summary stands behind the report. What one site does alone is the same in each run: nothing waits, and nothing is sent.
#[test]
fn a_summary_of_one_site(rt: HostRuntime) {
    let mut reader = b"preset 1\nstore 0 0 7\nload 0 0\n".as_slice();
    let words = ["shmdbg", "run", "--sites=1", "--seed=1", "--summary"];
    let ran = run_over(&rt, &words, &mut reader);
    let text =
        b"1 ready\n2 stored\n3 byte 7\naudit yes\nsteps 2\nfaults 0\nenvelopes 0\nlosses 0\nrepeats 0\ntook ";
    assert_eq!(rt; ran.status, 0);
    assert!(rt; ran.out.as_slice().starts_with(text));
    assert!(rt; ran.out.as_slice().ends_with(b" ms\n".as_slice()));
    assert_eq!(rt; ran.errors.as_slice(), b"".as_slice());
}

/// Nothing is written where the workload has a fault.
#[test]
fn wrong_workloads(rt: HostRuntime) {
    let cases: [(&[u8], &[u8]); 4] = [
        (b"", b"shmdbg: line 1: bad line\n"),
        (b"sites 1 preset 1\n", b"shmdbg: line 1: bad line\n"),
        (b"preset 1\nload 1 0\n", b"shmdbg: line 2: bad line\n"),
        (b"preset 1\nload 0 0", b"shmdbg: line 2: bad line\n"),
    ];
    for (workload, errors) in cases {
        let ran = run_bytes(&rt, workload);
        expect(&rt, &ran, 1, b"", errors);
    }
}

/// A line of 200 bytes is read and then refused; at 201 the line is too long, also at the end.
#[test]
fn long_lines(rt: HostRuntime) -> Result<(), Fail> {
    for (count, end, errors) in [
        (200, "\n", b"shmdbg: line 2: bad line\n".as_slice()),
        (201, "", b"shmdbg: line 2: too long\n".as_slice()),
        (201, "\n", b"shmdbg: line 2: too long\n".as_slice()),
    ] {
        let mut workload = String::from_str(rt.alloc(), "preset 1\n")?;
        for _ in 0..count {
            workload.push('a')?;
        }
        workload.push_str(end)?;
        let ran = run_bytes(&rt, workload.as_bytes());
        expect(&rt, &ran, 1, b"", errors);
    }
    Ok(())
}

/// One byte after line 10,000 is refused, whatever it is.
#[test]
fn too_many_lines(rt: HostRuntime) -> Result<(), Fail> {
    let mut workload = String::from_str(rt.alloc(), "preset 1\n")?;
    for _ in 2..=10_000 {
        workload.push_str("load 0 0\n")?;
    }
    workload.push('x')?;
    let ran = run_bytes(&rt, workload.as_bytes());
    expect(&rt, &ran, 1, b"", b"shmdbg: too many lines\n");
    Ok(())
}
