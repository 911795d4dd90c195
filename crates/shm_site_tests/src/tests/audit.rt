//! Boxes that are given inputs from tables; what the audit says of their logs, with receipts as they were told, mixed up, or of others.
//!
//! Whoever holds logs drops them by name: a drop at the end of its scope is written out there, and takes far longer to prove.
use super::expect;
use shm_logs::{
    AuditFault, Envelope, Event, Input, Receipt, SiteBox, SiteLog, Stamp, audit, logs_match,
};
use shm_model::Kind;
use shm_parts::{BookNote, Message, Note};
use shm_place::{PageId, SegId, SiteId, Sites};
use std::alloc::{AllocError, Allocator};
use std::test::Fail;

mod complete_receipts;
mod deliveries;
mod out_of_memory;

/// How many pages segment 0 has.
const PAGES: u32 = 4;

/// One input of a box: an access through attachment 0, or this site asking for this page of segment 0 to read it.
#[derive(Clone, Copy)]
enum Given {
    Load(u32),
    Store(u32, u8),
    Ask(u32, u32),
}

/// The logs of sites, and what callers were told.
type Logs<A> = Vec<SiteLog<A>, A>;

type Told<A> = Vec<Receipt, A>;

/// What an audit says, if the logs are those of sites.
type Verdict<A> = Option<Result<Vec<Event, A>, AuditFault>>;

const SEVEN: [(Given, Stamp); 2] = [
    (Given::Store(0, 7), Stamp::NONE),
    (Given::Load(0), Stamp::NONE),
];

const EIGHT: [(Given, Stamp); 2] = [
    (Given::Store(0, 8), Stamp::NONE),
    (Given::Load(0), Stamp::NONE),
];

const ELSEWHERE: [(Given, Stamp); 2] = [
    (Given::Store(0, 7), Stamp::NONE),
    (Given::Load(1), Stamp::NONE),
];

/// The steps of `SEVEN`.
const EVENTS: [Event; 2] = [
    Event::Store {
        site: SiteId(0),
        at: 0,
        offset: 0,
        byte: 7,
    },
    Event::Load {
        site: SiteId(0),
        at: 0,
        offset: 0,
    },
];

#[test]
fn what_was_told_holds(rt: HostRuntime) -> Result<(), Fail> {
    let callers = one_caller(rt.alloc(), 1, 0, &SEVEN)?;
    let audited = audit_seven(rt.alloc(), &callers);
    drop(callers);
    expect(&rt, are_events(&audited?, &EVENTS));
    Ok(())
}

/// The second receipt is of a box that stored another byte, or loaded another place.
#[test]
fn receipts_of_another_box_are_forged(rt: HostRuntime) -> Result<(), Fail> {
    let forged = Some(AuditFault::Forged {
        site: SiteId(0),
        index: 1,
    });
    expect(&rt, of_two_boxes(rt.alloc(), &EIGHT)? == forged);
    expect(&rt, of_two_boxes(rt.alloc(), &ELSEWHERE)? == forged);
    expect(&rt, of_two_boxes(rt.alloc(), &SEVEN)?.is_none());
    Ok(())
}

/// Receipts of `SEVEN`: the callers' lists, by the indexes of the receipts, and the index that is forged.
#[test]
fn a_receipt_counts_once_and_in_its_order(rt: HostRuntime) -> Result<(), Fail> {
    let forged = Some(AuditFault::Forged {
        site: SiteId(0),
        index: 0,
    });
    expect(&rt, of_callers(rt.alloc(), [1, 0], [])? == forged);
    expect(&rt, of_callers(rt.alloc(), [0, 1], [0])? == forged);
    expect(&rt, of_callers(rt.alloc(), [1], [0])?.is_none());
    Ok(())
}

/// A receipt of site 1 of two, where the logs are those of a single site.
#[test]
fn a_receipt_of_a_site_without_a_log_is_forged(rt: HostRuntime) -> Result<(), Fail> {
    let callers = one_caller(rt.alloc(), 2, 1, &SEVEN)?;
    let audited = audit_seven(rt.alloc(), &callers);
    drop(callers);
    let forged = AuditFault::Forged {
        site: SiteId(1),
        index: 0,
    };
    expect(&rt, fault(&audited?) == Some(forged));
    Ok(())
}

/// What is wrong where the log is that of `SEVEN`, and the second receipt is that of a box with these inputs.
fn of_two_boxes<A: Allocator + Copy>(
    alloc: A,
    other: &[(Given, Stamp)],
) -> Result<Option<AuditFault>, AllocError> {
    let mut told_here = receipts_of(alloc, 1, 0, &SEVEN)?;
    let told_there = receipts_of(alloc, 1, 0, other)?;
    replace_second(&mut told_here, &told_there);
    drop(told_there);
    of_told(alloc, told_here)
}

fn replace_second(told: &mut [Receipt], other: &[Receipt]) {
    if told.len() == 2 && other.len() == 2 {
        told[1] = other[1];
    }
}

/// What is wrong where the log is that of `SEVEN`, and a single caller was told this.
fn of_told<A: Allocator + Copy>(alloc: A, told: Told<A>) -> Result<Option<AuditFault>, AllocError> {
    let callers = alone(alloc, told)?;
    let audited = audit_seven(alloc, &callers);
    drop(callers);
    Ok(fault(&audited?))
}

/// What the audit says where the log is that of `SEVEN`.
fn audit_seven<A: Allocator + Copy>(
    alloc: A,
    callers: &[Told<A>],
) -> Result<Verdict<A>, AllocError> {
    let logs = one_log(alloc, &SEVEN)?;
    let audited = audit_all(alloc, 1, &logs, callers);
    drop(logs);
    Ok(audited)
}

/// What is wrong where the log is that of `SEVEN`, and two callers were told of these steps of it.
fn of_callers<A: Allocator + Copy, const M: usize, const N: usize>(
    alloc: A,
    first: [usize; M],
    second: [usize; N],
) -> Result<Option<AuditFault>, AllocError> {
    let all = receipts_of(alloc, 1, 0, &SEVEN)?;
    let callers = choose_for_two(alloc, &all, &first, &second);
    drop(all);
    let callers = callers?;
    let audited = audit_seven(alloc, &callers);
    drop(callers);
    Ok(fault(&audited?))
}

/// Two callers' receipts: these of all.
fn choose_for_two<A: Allocator + Copy>(
    alloc: A,
    told: &[Receipt],
    first: &[usize],
    second: &[usize],
) -> Result<Vec<Told<A>, A>, AllocError> {
    let first = choose(alloc, told, first)?;
    let second = choose(alloc, told, second)?;
    pair(alloc, first, second)
}

fn choose<A: Allocator + Copy>(
    alloc: A,
    told: &[Receipt],
    indexes: &[usize],
) -> Result<Told<A>, AllocError> {
    let mut chosen = Vec::new(alloc);
    'indexes: for index in indexes {
        if let Some(receipt) = told.get(*index) {
            chosen.push(*receipt)?;
        }
    }
    Ok(chosen)
}

/// What the audit says, if the logs are those of so many sites.
fn audit_all<A: Allocator + Copy>(
    alloc: A,
    count: u32,
    logs: &[SiteLog<A>],
    callers: &[Told<A>],
) -> Verdict<A> {
    let Ok(sites) = Sites::new(count) else {
        return None;
    };
    if !logs_match(sites, PAGES, logs) {
        return None;
    }
    Some(audit(alloc, sites, PAGES, logs, callers))
}

/// What it says where no caller was told anything.
fn audited_alone<A: Allocator + Copy>(alloc: A, count: u32, logs: &[SiteLog<A>]) -> Verdict<A> {
    let callers = Vec::new(alloc);
    let audited = audit_all(alloc, count, logs, &callers);
    drop(callers);
    audited
}

fn are_events<A: Allocator + Copy>(audited: &Verdict<A>, expected: &[Event]) -> bool {
    match audited {
        Some(Ok(events)) => events.as_slice() == expected,
        _ => false,
    }
}

fn fault<A: Allocator + Copy>(audited: &Verdict<A>) -> Option<AuditFault> {
    match audited {
        Some(Err(fault)) => Some(*fault),
        _ => None,
    }
}

fn one_log<A: Allocator + Copy>(alloc: A, given: &[(Given, Stamp)]) -> Result<Logs<A>, AllocError> {
    let log = log_of(alloc, 1, 0, given)?;
    alone(alloc, log)
}

/// The logs of two sites that were given these inputs.
fn two_logs<A: Allocator + Copy>(
    alloc: A,
    at_0: &[(Given, Stamp)],
    at_1: &[(Given, Stamp)],
) -> Result<Logs<A>, AllocError> {
    let at_0 = log_of(alloc, 2, 0, at_0)?;
    let at_1 = log_of(alloc, 2, 1, at_1)?;
    pair(alloc, at_0, at_1)
}

fn alone<T: Drop, A: Allocator + Copy>(alloc: A, item: T) -> Result<Vec<T, A>, AllocError> {
    let mut items = Vec::with_capacity(alloc, 1)?;
    items.push_reserved(item);
    Ok(items)
}

fn pair<T: Drop, A: Allocator + Copy>(
    alloc: A,
    first: T,
    second: T,
) -> Result<Vec<T, A>, AllocError> {
    let mut items = Vec::with_capacity(alloc, 2)?;
    items.push_reserved(first);
    items.push_reserved(second);
    Ok(items)
}

/// The log of this site of so many that was given these inputs.
fn log_of<A: Allocator + Copy>(
    alloc: A,
    count: u32,
    me: u32,
    given: &[(Given, Stamp)],
) -> Result<SiteLog<A>, AllocError> {
    let mut site = preset_box(alloc, count, me)?;
    'given: for (given, source) in given {
        let _ = site.take(input_of(*given, me), *source);
    }
    Ok(site.into_log())
}

/// What it is told of its steps.
fn receipts_of<A: Allocator + Copy>(
    alloc: A,
    count: u32,
    me: u32,
    given: &[(Given, Stamp)],
) -> Result<Told<A>, AllocError> {
    let mut site = preset_box(alloc, count, me)?;
    let mut told = Vec::new(alloc);
    let taken = take_all(&mut site, me, given, &mut told);
    drop(site);
    taken?;
    Ok(told)
}

/// The one caller of this site of so many is told of its steps.
fn one_caller<A: Allocator + Copy>(
    alloc: A,
    count: u32,
    me: u32,
    given: &[(Given, Stamp)],
) -> Result<Vec<Told<A>, A>, AllocError> {
    let told = receipts_of(alloc, count, me, given)?;
    alone(alloc, told)
}

/// Gives the box these inputs. Its receipts join those of before.
fn take_all<A: Allocator + Copy>(
    site: &mut SiteBox<A>,
    me: u32,
    given: &[(Given, Stamp)],
    told: &mut Told<A>,
) -> Result<(), AllocError> {
    'given: for (given, source) in given {
        if let Ok(receipt) = site.take(input_of(*given, me), *source) {
            told.push(receipt)?;
        }
    }
    Ok(())
}

fn preset_box<A: Allocator + Copy>(
    alloc: A,
    count: u32,
    me: u32,
) -> Result<SiteBox<A>, AllocError> {
    let Ok(sites) = Sites::new(count) else {
        return Err(AllocError);
    };
    if me >= sites.count() {
        return Err(AllocError);
    }
    SiteBox::new(alloc, sites, SiteId(me), PAGES)
}

fn input_of<A: Allocator + Copy>(given: Given, me: u32) -> Input<A> {
    match given {
        Given::Load(offset) => Input::Load { at: 0, offset },
        Given::Store(offset, byte) => Input::Store {
            at: 0,
            offset,
            byte,
        },
        Given::Ask(from, index) => Input::Deliver(Envelope {
            from: SiteId(from),
            to: SiteId(me),
            message: Message::Of {
                page: PageId {
                    seg: SegId(0),
                    index,
                },
                note: Note::ToBook(BookNote::Ask {
                    request: 1,
                    kind: Kind::Read,
                }),
            },
        }),
    }
}
