//! Workloads that run; what they are told holds for every schedule.
use shm_lines::parse_workload;
use shm_model::Answer;
use shm_place::Sites;
use shm_report::{Ran, run_workload};
use std::alloc::Global;
use std::sync::Wait;
use std::test::Fail;
use std::thread::Threads;

/// A site of its own stores, and loads what it stored.
#[test]
fn a_workload_is_told_its_bytes(rt: HostRuntime) -> Result<(), Fail> {
    let lines = b"preset 1\nstore 0 0 7\nload 0 0\n";
    let told = last_answers(&rt, rt.alloc(), 1, lines)?;
    assert_eq!(rt; told.as_slice(), [Some(Answer::Byte(7))].as_slice());
    drop(told);
    Ok(())
}

/// Each site's lines run in their order, also where several want one page.
#[test]
fn callers_run_side_by_side(rt: HostRuntime) -> Result<(), Fail> {
    let lines =
        b"preset 3\nstore 0 0 1\nstore 1 4096 2\nstore 2 1 3\nload 0 0\nload 1 4096\nload 2 1\n";
    let told = last_answers(&rt, rt.alloc(), 3, lines)?;
    let bytes = [
        Some(Answer::Byte(1)),
        Some(Answer::Byte(2)),
        Some(Answer::Byte(3)),
    ];
    assert_eq!(rt; told.as_slice(), bytes.as_slice());
    drop(told);
    Ok(())
}

/// What each caller was answered last when these lines have run over so many sites.
fn last_answers<R: Threads + Wait + Copy + Send + Sync + 'static>(
    rt: &R,
    alloc: Global,
    count: u32,
    lines: &[u8],
) -> Result<Vec<Option<Answer>>, Fail> {
    let sites = Sites::new(count)?;
    let workload = parse_workload(alloc, sites, lines)?;
    let Ok(ran) = run_workload(rt, alloc, sites, 1, &workload) else {
        return Err(Fail::new("not run"));
    };
    drop(workload);
    let answers = answers_of(alloc, &ran);
    drop(ran);
    answers
}

fn answers_of(alloc: Global, ran: &Ran) -> Result<Vec<Option<Answer>>, Fail> {
    let mut answers = Vec::new(alloc);
    for receipts in ran.callers.as_slice() {
        answers.push(receipts.last().map(|receipt| receipt.answer()))?;
    }
    Ok(answers)
}
