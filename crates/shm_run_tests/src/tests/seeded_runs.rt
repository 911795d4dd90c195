//! That a run draws from its seed: what becomes of the first envelope that a site's thread sends.
use shm_lines::parse_workload;
use shm_parts::{EntryNote, Message, Note};
use shm_place::Sites;
use shm_report::run_workload;
use shm_sites::{Input, SiteLog};
use std::alloc::Global;
use std::sync::Wait;
use std::test::Fail;
use std::thread::Threads;

/// Site 0 reads a page of site 1's, and then writes it: its second request comes behind all that the first one made site 1 send itself.
const LINES: &[u8] = b"preset 2\nload 0 4096\nstore 0 4096 7\n";

/// A seed under which the first number of site 1's stream leaves 0 modulo 16, as PCG's own formula gives it.
const LOSES: u64 = 26;

/// One under which it leaves 1.
const REPEATS: u64 = 1;

/// One under which it leaves neither.
const SENDS: u64 = 2;

/// What a log has of the first order that its site, the manager and owner of a page, sent to itself.
#[derive(Clone, Copy, Debug, PartialEq, Eq)]
enum Seen {
    Once,
    Twice,
    /// It was sent again at a tick, and the first one never came.
    AfterTick,
}

#[test]
fn a_run_draws_from_its_seed(rt: HostRuntime) -> Result<(), Fail> {
    let lost = seen_under(&rt, rt.alloc(), LOSES)?;
    let repeated = seen_under(&rt, rt.alloc(), REPEATS)?;
    let sent = seen_under(&rt, rt.alloc(), SENDS)?;
    assert_eq!(rt; lost, Some(Seen::AfterTick));
    assert_eq!(rt; repeated, Some(Seen::Twice));
    assert_eq!(rt; sent, Some(Seen::Once));
    Ok(())
}

/// What site 1's log has of it after a run from this seed.
fn seen_under<R: Threads + Wait + Copy + Send + Sync + 'static>(
    rt: &R,
    alloc: Global,
    seed: u64,
) -> Result<Option<Seen>, Fail> {
    let sites = Sites::new(2)?;
    let workload = parse_workload(alloc, sites, LINES)?;
    let Ok(ran) = run_workload(rt, alloc, sites, seed, &workload) else {
        return Err(Fail::new("not run"));
    };
    drop(workload);
    let seen = ran.logs.get(1).and_then(|log| first_order(log));
    drop(ran);
    Ok(seen)
}

fn first_order(log: &SiteLog) -> Option<Seen> {
    let steps = log.steps();
    let source = steps.iter().find(|step| is_hand(&step.input))?.source;
    if is_tick(&steps.get(source.index)?.input) {
        return Some(Seen::AfterTick);
    }
    let times = steps
        .iter()
        .filter(|step| is_hand(&step.input) && step.source == source)
        .count();
    match times {
        1 => Some(Seen::Once),
        2 => Some(Seen::Twice),
        _ => None,
    }
}

fn is_hand(input: &Input) -> bool {
    match input {
        Input::Deliver(envelope) => matches!(
            envelope.message,
            Message::Of {
                note: Note::ToEntry(EntryNote::Hand { .. }),
                ..
            }
        ),
        _ => false,
    }
}

fn is_tick(input: &Input) -> bool {
    matches!(input, Input::Tick)
}
