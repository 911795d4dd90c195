//! Steps of clients for which memory is refused.
use super::{HEAP, HOLES, Still, fill_heap_but, opened_in};
use crate::{Asked, Client, ClientFault};
use linked_list_allocator::LocalHeap;
use shm_model::Answer;
use shm_place::SiteId;
use std::alloc::Global;
use std::process::Abort;
use std::sync::Wait;
use std::test::Fail;

/// An offset in page 1, which site 1 manages.
const THERE: u32 = 4096;

/// What site 1 of 2 is asked for, and what it answers. Page 0 is at site 0.
const STEPS: [(Asked, Answer); 4] = [
    (
        Asked::Store {
            at: 0,
            offset: THERE,
            byte: 7,
        },
        Answer::Stored,
    ),
    (
        Asked::Load {
            at: 0,
            offset: THERE,
        },
        Answer::Byte(7),
    ),
    (Asked::Load { at: 0, offset: 0 }, Answer::Fault),
    (Asked::Load { at: 0, offset: 0 }, Answer::Waiting),
];

/// A refused step leaves the site's log and clock as they were, and the same call made again answers what it would have.
#[test]
fn a_refused_step_changes_nothing(rt: HostRuntime) -> Result<(), Fail> {
    let heap = LocalHeap::new(rt.alloc(), HEAP)?;
    let still = opened_in(&heap, 2)?;
    let tries = steps(&rt, rt.alloc(), &heap, &still);
    drop(still);
    let [stored, _, asked, _] = tries?;
    assert!(rt; stored > 0 && asked > 0);
    Ok(())
}

/// How often each step is refused while the hole widens.
fn steps<R: Wait + Abort>(
    rt: &R,
    alloc: Global,
    heap: &LocalHeap,
    still: &Still<'_>,
) -> Result<[usize; 4], Fail> {
    let Ok(client) = still.cluster.client(SiteId(1)) else {
        return Err(Fail::new("no site 1"));
    };
    let mut all = [0; 4];
    for (tries, (asked, answer)) in all.iter_mut().zip(STEPS) {
        let (refused, made) = step_at_last(rt, alloc, heap, &client, asked)?;
        assert_eq!(rt; made, answer);
        *tries = refused;
    }
    assert_eq!(rt; look(rt, &client), (4, 4));
    Ok(all)
}

/// How often the step is refused while the hole widens, and its answer.
fn step_at_last<R: Wait + Abort>(
    rt: &R,
    alloc: Global,
    heap: &LocalHeap,
    client: &Client<'_, &LocalHeap>,
    asked: Asked,
) -> Result<(usize, Answer), Fail> {
    let before = look(rt, client);
    for tries in 0..HOLES {
        let blocks = fill_heap_but(alloc, heap, tries * 16)?;
        let answer = try_once(rt, client, asked);
        drop(blocks);
        match answer {
            Ok(answer) => return Ok((tries, answer)),
            Err(fault) => assert_eq!(rt; fault, ClientFault::OutOfMemory),
        }
        assert_eq!(rt; look(rt, client), before);
    }
    Err(Fail::new("no step was made"))
}

fn try_once<R: Wait>(
    rt: &R,
    client: &Client<'_, &LocalHeap>,
    asked: Asked,
) -> Result<Answer, ClientFault> {
    let receipt = match asked {
        Asked::Load { at, offset } => client.try_load(rt, at, offset),
        Asked::Store { at, offset, byte } => client.try_store(rt, at, offset, byte),
    };
    match receipt {
        Ok(receipt) => Ok(receipt.answer()),
        Err(fault) => Err(fault),
    }
}

/// How many steps the log of the client's site has, and the site's clock.
fn look<R: Wait>(rt: &R, client: &Client<'_, &LocalHeap>) -> (usize, u64) {
    let held = client.post.site.lock(rt);
    (held.log().len(), held.clock())
}

/// What a load of page 0 at site 1 comes to: its answer, if it made a step, and how many envelopes came to site 0.
type Outcome = (Option<Answer>, usize);

/// First the step is refused. Then it is made, and what it sends is lost; then that arrives.
const OUTCOMES: [Outcome; 3] = [
    (None, 0),
    (Some(Answer::Fault), 0),
    (Some(Answer::Fault), 1),
];

#[test]
fn what_a_step_sends_is_lost_without_memory(rt: HostRuntime) -> Result<(), Fail> {
    let mut outcomes = Vec::new(rt.alloc());
    for tries in 0..HOLES {
        let outcome = asks_within(&rt, rt.alloc(), tries * 16)?;
        if outcomes.last() != Some(&outcome) {
            outcomes.push(outcome)?;
        }
        if outcome.1 > 0 {
            break;
        }
    }
    assert_eq!(rt; outcomes.as_slice(), OUTCOMES.as_slice());
    Ok(())
}

/// A load in a heap with so small a hole.
fn asks_within<R: Wait>(rt: &R, alloc: Global, bytes: usize) -> Result<Outcome, Fail> {
    let heap = LocalHeap::new(alloc, HEAP)?;
    let still = opened_in(&heap, 2)?;
    let outcome = asks(rt, alloc, &heap, &still, bytes);
    drop(still);
    outcome
}

fn asks<R: Wait>(
    rt: &R,
    alloc: Global,
    heap: &LocalHeap,
    still: &Still<'_>,
    bytes: usize,
) -> Result<Outcome, Fail> {
    let (Ok(client), Some(worker)) = (still.cluster.client(SiteId(1)), still.workers.first()) else {
        return Err(Fail::new("no such sites"));
    };
    let blocks = fill_heap_but(alloc, heap, bytes)?;
    let answer = try_once(rt, &client, STEPS[2].0).ok();
    drop(blocks);
    Ok((answer, worker.mail.len()))
}
