mod io_errors;
mod runs;
mod seeds;

use shm_place::Sites;
use shm_report::{ReportFault, report};
use std::alloc::Global;
use std::sync::Wait;
use std::test::Fail;
use std::thread::Threads;

/// What running this workload over so many sites answers, and what it writes.
fn report_run<R: Threads + Wait + Copy + Send + Sync + 'static>(
    rt: &R,
    alloc: Global,
    sites: u32,
    seed: u32,
    workload: &[u8],
) -> Result<(Result<(), ReportFault>, Vec<u8>), Fail> {
    let sites = Sites::new(sites).ok().ok_or("1 to 16 sites")?;
    let mut reader = workload;
    let mut out = Vec::new(alloc);
    let answer = report(rt, alloc, sites, seed, &mut reader, &mut out);
    Ok((answer, out))
}

/// One site stores and loads.
#[test]
fn one_site(rt: HostRuntime) -> Result<(), Fail> {
    let workload = b"preset 1\nstore 0 0 7\nload 0 0\n";
    let (answer, out) = report_run(&rt, rt.alloc(), 1, 1, workload)?;
    assert_eq!(rt; answer, Ok(()));
    assert_eq!(rt;
        out.as_slice(),
        b"1 ready\n2 stored\n3 byte 7\naudit yes\n".as_slice()
    );
    drop(out);
    Ok(())
}
