//! The logs of two boxes that are given inputs from tables, in their one order and as events.
//!
//! Whoever holds logs drops them by name: a drop at the end of its scope is written out there, and takes far longer to prove.
ghost use Rattle.std.specs.Prelude.{◌≡◌, ◌≤◌, [], List, IfOk, length};
ghost use Rattle.std.specs.List.{All};
ghost use Rattle.shm_logs.specs.Boxes.SiteLog.{steps_of};
ghost use Rattle.shm_model.specs.Log.{Logged, LogsMatch, Matches};
ghost use Rattle.shm_logs.specs.Auditing.Logs.{logs_of, LogsRise, StampsRise};
ghost use Rattle.shm_site.specs.Step.{input_of};

use super::expect;
use shm_logs::{Event, Input, SiteBox, SiteLog, Stamp, StepName, events, logs_match, merge};
use shm_place::{SiteId, Sites};
use std::alloc::{AllocError, Allocator};
use std::test::Fail;

mod out_of_memory;

/// An access through attachment 0, or a tick.
#[derive(Clone, Copy)]
enum Given {
    Load(u32),
    Store(u32, u8),
    Tick,
}

/// What each site is given. Its first step has stamp 1, the second 2.
const GIVEN: [&[Given]; 2] = [
    &[Given::Store(0, 7), Given::Load(4096), Given::Load(0)],
    &[Given::Tick, Given::Load(0)],
];

/// The steps by stamp, and by site where the stamps are the same: the site, and the index in its log.
const ORDER: [(u32, usize); 5] = [(0, 0), (1, 0), (0, 1), (1, 1), (0, 2)];

/// The same as events.
const EVENTS: [Event; 5] = [
    Event::Store {
        site: SiteId(0),
        at: 0,
        offset: 0,
        byte: 7,
    },
    Event::Tick { site: SiteId(1) },
    Event::Load {
        site: SiteId(0),
        at: 0,
        offset: 4096,
    },
    Event::Load {
        site: SiteId(1),
        at: 0,
        offset: 0,
    },
    Event::Load {
        site: SiteId(0),
        at: 0,
        offset: 0,
    },
];

#[test]
fn steps_with_one_stamp_go_by_site(rt: HostRuntime) -> Result<(), Fail> {
    let logs = both_logs(rt.alloc())?;
    let sites = two_sites()?;
    assert!(rt; logs_match(sites, 4, &logs));
    let order = merge(rt.alloc(), &logs)?;
    expect(&rt, are_named(&order, &ORDER));
    let told = events(rt.alloc(), &logs, &order)?;
    expect(&rt, told.as_slice() == &EVENTS[..]);
    drop(told);
    drop(order);
    drop(logs);
    Ok(())
}

/// Of the first logs of both sites so many, as those of so many sites with so many pages.
const MATCHES: [(usize, u32, u32, bool); 5] = [
    (2, 2, 4, true),
    (1, 2, 4, false),
    (2, 3, 4, false),
    (2, 2, 5, false),
    (1, 1, 4, false),
];

#[test]
fn logs_match_where_all_are_there(rt: HostRuntime) -> Result<(), Fail> {
    let logs = both_logs(rt.alloc())?;
    expect(&rt, match_as_expected(&logs));
    drop(logs);
    let swapped = two_logs(rt.alloc(), 1, 0)?;
    expect(&rt, !match_as(&swapped, 2, 4));
    drop(swapped);
    Ok(())
}

fn match_as_expected<A: Allocator + Copy>(logs: &[SiteLog<A>]) -> bool {
    'matches: for (count, sites, pages, matched) in &MATCHES {
        let Some(logs) = logs.get(..*count) else {
            return false;
        };
        if match_as(logs, *sites, *pages) != *matched {
            return false;
        }
    }
    true
}

fn match_as<A: Allocator + Copy>(logs: &[SiteLog<A>], sites: u32, pages: u32) -> bool {
    match Sites::new(sites) {
        Ok(sites) => logs_match(sites, pages, logs),
        Err(_) => false,
    }
}

fn are_named(order: &[StepName], expected: &[(u32, usize)]) -> bool {
    order.len() == expected.len()
        && order.iter().zip(expected).all(|(name, (site, index))| name.site == SiteId(*site)
            && name.index == *index)
}

fn two_sites() -> Result<Sites, AllocError>
    ensures { IfOk result (λ sites. sites ≡ 2) }
{
    match Sites::new(2) {
        Ok(sites) => Ok(sites),
        Err(_) => Err(AllocError),
    }
}

/// The logs of both sites, where segment 0 has 4 pages.
fn both_logs<A: Allocator + Copy>(alloc: A) -> Result<Vec<SiteLog<A>, A>, AllocError>
    ensures rise { IfOk result (λ logs. LogsRise (logs_of logs.items)) }
    ensures matching { IfOk result (λ logs. LogsMatch (logs_of logs.items)) }
{
    two_logs(alloc, 0, 1)
}

fn two_logs<A: Allocator + Copy>(
    alloc: A,
    first: u32,
    second: u32,
) -> Result<Vec<SiteLog<A>, A>, AllocError>
    requires first { first ≤ 1 }
    requires second { second ≤ 1 }
    ensures rise { IfOk result (λ logs. LogsRise (logs_of logs.items)) }
    ensures matching { IfOk result (λ logs. LogsMatch (logs_of logs.items)) }
{
    let first = log_of(alloc, first)?;
    let second = log_of(alloc, second)?;
    let mut logs = Vec::with_capacity(alloc, 2)?;
    logs.push(first)?;
    logs.push(second)?;
    Ok(logs)
}

/// The log of this site, which was given its inputs.
fn log_of<A: Allocator + Copy>(alloc: A, me: u32) -> Result<SiteLog<A>, AllocError>
    requires { me ≤ 1 }
    ensures rises { IfOk result (λ log. StampsRise (steps_of log)) }
    ensures matches { IfOk result (λ log. All (λ l. (logs : List (List Logged)) → Matches logs l l.input) (steps_of log)) }
{
    let sites = two_sites()?;
    let mut site = SiteBox::new(alloc, sites, SiteId(me), 4)?;
    'given: for given in GIVEN[me as usize] {
        give(&mut site, *given);
    }
    Ok(site.into_log())
}

/// Makes the step, or leaves the box as it was.
fn give<A: Allocator + Copy>(site: &mut SiteBox<A>, given: Given)
    requires rises { StampsRise (steps_of site.old.log) }
    requires below { All (λ l. l.stamp ≤ site.old.clock) (steps_of site.old.log) }
    requires matches { All (λ l. (logs : List (List Logged)) → Matches logs l l.input) (steps_of site.old.log) }
    ensures rises { StampsRise (steps_of site.new.log) }
    ensures below { All (λ l. l.stamp ≤ site.new.clock) (steps_of site.new.log) }
    ensures matches { All (λ l. (logs : List (List Logged)) → Matches logs l l.input) (steps_of site.new.log) }
{
    let _ = site.take(input_of(given), Stamp::NONE);
}

fn input_of<A: Allocator + Copy>(given: Given) -> Input<A>
    ensures { (logs : List (List Logged)) (l : Logged) → Matches logs l (input_of result) }
{
    match given {
        Given::Load(offset) => Input::Load { at: 0, offset },
        Given::Store(offset, byte) => Input::Store {
            at: 0,
            offset,
            byte,
        },
        Given::Tick => Input::Tick,
    }
}
