//! A run in which one site's thread is held for a while, whose logs and receipts stand before the audit.
use shm_model::Answer;
use shm_place::{SiteId, Sites};
use shm_sites::{Client, ClientFault, Cluster, Gate, Receipt, SiteLog, audit_complete, logs_match};
use std::alloc::{AllocError, Global};
use std::process::Abort;
use std::sync::atomic::{AtomicBool, Ordering};
use std::sync::{Arc, Wait};
use std::test::Fail;
use std::thread;
use std::thread::Threads;

/// How many pages segment 0 has.
const PAGES: u32 = 3;

/// How many tries a wait has.
const TRIES: u64 = 10_000_000_000;

/// An offset in page 1, which site 1 manages.
const THERE: u32 = 4096;

/// What a held gate and its test tell each other.
#[derive(Drop)]
struct Flags {
    entered: AtomicBool,
    opened: AtomicBool,
    late: AtomicBool,
}

impl Flags {
    fn new() -> Flags {
        Flags {
            entered: AtomicBool::new(false),
            opened: AtomicBool::new(false),
            late: AtomicBool::new(false),
        }
    }
}

/// Holds site 0's thread until the flag is set, and lets others pass.
#[derive(Drop)]
struct HoldsFirst {
    flags: Arc<Flags>,
}

impl Gate for HoldsFirst {
    fn pass(&self, site: SiteId) {
        if site.0 != 0 {
            return;
        }
        set(&self.flags.entered);
        if !is_set_in_time(&self.flags.opened) {
            set(&self.flags.late);
        }
    }
}

fn set(flag: &AtomicBool) {
    flag.store(true, Ordering::SeqCst);
}

fn is_set(flag: &AtomicBool) -> bool {
    flag.load(Ordering::SeqCst)
}

/// Waits for the flag, and tells whether it was set.
fn is_set_in_time(flag: &AtomicBool) -> bool {
    'tries: for _ in 0..TRIES {
        if is_set(flag) {
            return true;
        }
        thread::yield_now();
    }
    false
}

/// The receipts of the load that began at the held site, of what the other two did meanwhile, and of what came after.
#[derive(Clone, Copy)]
struct Told {
    late: Receipt,
    beside: [Receipt; 4],
    after: [Receipt; 2],
}

/// A cluster whose site 0 is held until the flag is set.
fn held_cluster<R: Threads + Wait + Copy + Send + 'static>(
    rt: &R,
    alloc: Global,
    sites: Sites,
    flags: &Arc<Flags>,
) -> Result<Cluster, Fail> {
    let gate = HoldsFirst {
        flags: Arc::try_clone(flags)?,
    };
    Ok(Cluster::start(rt, alloc, sites, PAGES, 1, gate)?)
}

/// What its clients are told: while the thread stands at the gate, and then. Also whether it came there.
fn told_by<R: Threads + Wait + Sync>(
    rt: &R,
    cluster: &Cluster,
    flags: &Flags,
) -> Result<(bool, Told), Fail> {
    cluster.tick_all(rt)?;
    let entered = is_set_in_time(&flags.entered);
    let (late, beside) = run(rt, cluster, flags)?;
    let after = after(rt, cluster)?;
    let told = Told {
        late,
        beside,
        after,
    };
    Ok((entered, told))
}

/// The receipts, whether the thread came to the gate, and the logs.
type Held = (Result<(bool, Told), Fail>, Result<Vec<SiteLog>, AllocError>);

/// What a cluster's clients are told, and its logs when it has stopped.
fn run_held<R: Threads + Wait + Copy + Send + Sync + 'static>(
    rt: &R,
    alloc: Global,
    sites: Sites,
    flags: &Arc<Flags>,
) -> Result<Held, Fail> {
    let cluster = held_cluster(rt, alloc, sites, flags)?;
    let told = told_by(rt, &cluster, flags);
    Ok((told, cluster.stop(rt)))
}

/// The answers are as they are to be, and the audit accepts the logs and these receipts.
fn expect_accepted(
    rt: &impl Abort,
    alloc: Global,
    sites: Sites,
    told: &Told,
    logs: &[SiteLog],
) -> Result<(), AllocError> {
    let answers = answers(alloc, told)?;
    assert!(rt; told.late.index() > 0);
    assert_eq!(rt; answers.as_slice(), ANSWERS.as_slice());
    let callers = callers(alloc, told)?;
    assert!(rt; logs_match(sites, PAGES, logs));
    assert!(rt; is_accepted(alloc, sites, logs, callers.as_slice()));
    Ok(())
}

/// While site 0's thread stands at the gate, a load there waits for it, and the other two sites serve each other. Then all take part. The
/// audit accepts the logs, and these receipts as all that there are.
#[test]
fn the_audit_accepts_a_run_with_a_held_thread(rt: HostRuntime) -> Result<(), Fail> {
    let sites = Sites::new(3)?;
    let flags = Arc::new(rt.alloc(), Flags::new())?;
    let (told, logs) = run_held(&rt, rt.alloc(), sites, &flags)?;
    let in_time = !is_set(&flags.late);
    drop(flags);
    let (entered, told) = told?;
    let logs = logs?;
    assert!(rt; entered && in_time);
    expect_accepted(&rt, rt.alloc(), sites, &told, logs.as_slice())?;
    Ok(())
}

/// What the receipts answer, those of the held site's load first.
const ANSWERS: [Answer; 7] = [
    Answer::Byte(0),
    Answer::Stored,
    Answer::Byte(7),
    Answer::Stored,
    Answer::Byte(8),
    Answer::Stored,
    Answer::Byte(9),
];

fn answers(alloc: Global, told: &Told) -> Result<Vec<Answer>, AllocError> {
    let mut answers = Vec::new(alloc);
    answers.push(told.late.answer())?;
    'receipts: for receipt in told.beside.iter().chain(told.after.iter()) {
        answers.push(receipt.answer())?;
    }
    Ok(answers)
}

/// The receipts by callers: one had the load that waited, one the other two sites, and one all that came after.
fn callers(alloc: Global, told: &Told) -> Result<Vec<Vec<Receipt>>, AllocError> {
    let late = Vec::from_slice(alloc, [told.late].as_slice())?;
    let beside = Vec::from_slice(alloc, told.beside.as_slice())?;
    let after = Vec::from_slice(alloc, told.after.as_slice())?;
    let mut callers = Vec::new(alloc);
    callers.push(late)?;
    callers.push(beside)?;
    callers.push(after)?;
    Ok(callers)
}

fn is_accepted(alloc: Global, sites: Sites, logs: &[SiteLog], callers: &[Vec<Receipt>]) -> bool {
    logs_match(sites, PAGES, logs) && audit_complete(alloc, sites, PAGES, logs, callers).is_ok()
}

/// The receipt of a load at site 0 that began before the other two sites served each other, and theirs. Then the gate is open.
fn run<R: Threads + Wait + Sync>(
    rt: &R,
    cluster: &Cluster,
    flags: &Flags,
) -> Result<(Receipt, [Receipt; 4]), Fail> {
    let Ok(first) = cluster.client(SiteId(0)) else {
        return Err(Fail::new("no site 0"));
    };
    let Ok(second) = cluster.client(SiteId(1)) else {
        return Err(Fail::new("no site 1"));
    };
    let Ok(third) = cluster.client(SiteId(2)) else {
        return Err(Fail::new("no site 2"));
    };
    let started = AtomicBool::new(false);
    let (late, beside) = thread::join(
        rt,
        || late(rt, &first, &started),
        || beside(rt, &second, &third, &started, &flags.opened),
    );
    Ok((late?, beside?))
}

fn late<R: Wait>(rt: &R, first: &Client<'_>, started: &AtomicBool) -> Result<Receipt, ClientFault> {
    set(started);
    first.try_load(rt, 0, 0)
}

/// What one site stores the other loads, twice; and then the gate is opened.
fn beside<R: Wait>(
    rt: &R,
    second: &Client<'_>,
    third: &Client<'_>,
    started: &AtomicBool,
    opened: &AtomicBool,
) -> Result<[Receipt; 4], ClientFault> {
    let receipts = match is_set_in_time(started) {
        true => serve_both(rt, second, third),
        false => Err(ClientFault::GaveUp),
    };
    set(opened);
    receipts
}

fn serve_both<R: Wait>(
    rt: &R,
    second: &Client<'_>,
    third: &Client<'_>,
) -> Result<[Receipt; 4], ClientFault> {
    let stored = second.store(rt, 0, THERE, 7)?;
    let loaded = third.load(rt, 0, THERE)?;
    let again = second.store(rt, 0, THERE, 8)?;
    let seen = third.load(rt, 0, THERE)?;
    Ok([stored, loaded, again, seen])
}

/// Site 0 takes part again.
fn after<R: Wait>(rt: &R, cluster: &Cluster) -> Result<[Receipt; 2], Fail> {
    let Ok(first) = cluster.client(SiteId(0)) else {
        return Err(Fail::new("no site 0"));
    };
    let Ok(second) = cluster.client(SiteId(1)) else {
        return Err(Fail::new("no site 1"));
    };
    let stored = first.store(rt, 0, THERE, 9)?;
    let loaded = second.load(rt, 0, THERE)?;
    Ok([stored, loaded])
}
