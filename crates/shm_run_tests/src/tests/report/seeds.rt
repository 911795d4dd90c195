//! Workloads whose text no schedule and no draw of the network can change.
use super::report_run;
use std::alloc::Global;
use std::sync::Wait;
use std::test::Fail;
use std::thread::Threads;

/// Seeds from which the network draws other losses and repeats.
const SEEDS: [u32; 3] = [1, 2, 4294967295];

/// Under every seed the workload writes this text.
fn writes_under_every_seed<R: Threads + Wait + Copy + Send + Sync + 'static>(
    rt: &R,
    alloc: Global,
    sites: u32,
    workload: &[u8],
    text: &[u8],
) -> Result<(), Fail> {
    for seed in SEEDS {
        let (answer, out) = report_run(rt, alloc, sites, seed, workload)?;
        if answer != Ok(()) || out.as_slice() != text {
            return Err("the seed shows".into());
        }
    }
    Ok(())
}

/// Each site has its own bytes of pages that all sites use and other sites manage: all seeds give the same text.
#[test]
fn sites_with_bytes_of_their_own(rt: HostRuntime) -> Result<(), Fail> {
    let workload =
        b"preset 2\nstore 0 4096 5\nstore 1 1 6\nstore 2 2 7\nload 0 4096\nload 1 1\nload 2 2\n\
        store 2 4098 8\nload 0 0\nload 2 4098\nload 2 2\n";
    let text = b"1 ready\n2 stored\n3 stored\n4 stored\n5 byte 5\n6 byte 6\n7 byte 7\n\
        8 stored\n9 byte 0\n10 byte 8\n11 byte 7\naudit yes\n";
    writes_under_every_seed(&rt, rt.alloc(), 3, workload, text)
}

/// One site alone uses a page that another manages: all seeds give the same text.
#[test]
fn one_site_of_two(rt: HostRuntime) -> Result<(), Fail> {
    let workload = b"preset 1\nload 1 9\nstore 1 9 1\nstore 1 9 2\nload 1 9\n";
    let text = b"1 ready\n2 byte 0\n3 stored\n4 stored\n5 byte 2\naudit yes\n";
    writes_under_every_seed(&rt, rt.alloc(), 2, workload, text)
}
