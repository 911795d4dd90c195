//! An owner's entry that is told to lend its page, to hand it over or to give it up, by tables; and what of that is refused for memory.
//!
//! An entry stands in a list: the proof writes out the drop of an entry, and not that of a list.
use super::expect;
use crate::tests::fill_heap::{Blocks, PAGE_BLOCKS, TRIES, fill};
use linked_list_allocator::LocalHeap;
use shm_page::{Entry, Out, clear, hand_to, lend_to};
use shm_place::SiteId;
use std::alloc::{AllocError, Allocator, Global};
use std::process::Abort;
use std::test::Fail;

/// What site 0 is told: to lend a copy or to hand the page over, under this number and to this site, or to give up what it has.
#[derive(Clone, Copy)]
enum Told {
    Lend(u64, u32),
    Hand(u64, u32),
    Clear(u64),
}

/// What it sends; of a page, to which site, under which number, and how many bytes.
#[derive(Clone, Copy)]
enum Sent {
    Nothing,
    Cleared(u64),
    Confirm(u64),
    Read(u32, u64, usize),
    Write(u32, u64, usize),
}

/// The state of an entry.
#[derive(Clone, Copy)]
enum State {
    Nil,
    OwnRead,
    OwnWrite,
    Handed,
}

/// What is told, what is sent on it, and state and number of the entry thereafter.
type Step = (Told, Sent, State, u64);

const LENT_TWICE: [Step; 2] = [
    (Told::Lend(1, 2), Sent::Read(2, 1, 4096), State::OwnRead, 1),
    (Told::Lend(2, 1), Sent::Read(1, 2, 4096), State::OwnRead, 2),
];

const HANDED_TWICE: [Step; 3] = [
    (Told::Hand(1, 2), Sent::Write(2, 1, 4096), State::Handed, 1),
    (Told::Hand(1, 2), Sent::Write(2, 1, 4096), State::Handed, 1),
    (Told::Clear(2), Sent::Cleared(2), State::Nil, 2),
];

/// To the owner itself, and under a number that is past.
const KEPT: [[Step; 2]; 2] = [
    [
        (Told::Lend(7, 0), Sent::Confirm(7), State::OwnWrite, 7),
        (Told::Lend(6, 2), Sent::Nothing, State::OwnWrite, 7),
    ],
    [
        (Told::Hand(7, 0), Sent::Confirm(7), State::OwnWrite, 7),
        (Told::Hand(6, 2), Sent::Nothing, State::OwnWrite, 7),
    ],
];

#[test]
fn an_owner_lends_and_hands_over_again(rt: HostRuntime) -> Result<(), Fail> {
    let mut entries = opening_entry(rt.alloc(), rt.alloc())?;
    expect_steps(&rt, &mut entries, &LENT_TWICE);
    let mut entries = opening_entry(rt.alloc(), rt.alloc())?;
    expect_steps(&rt, &mut entries, &HANDED_TWICE);
    Ok(())
}

#[test]
fn what_sends_no_bytes_takes_no_memory(rt: HostRuntime) -> Result<(), Fail> {
    for steps in KEPT {
        let heap = LocalHeap::new(rt.alloc(), 1 << 14)?;
        let mut entries = opening_entry(rt.alloc(), &heap)?;
        let mut blocks = Vec::new(rt.alloc());
        expect(&rt, fill(&heap, &mut blocks).is_ok());
        expect_steps(&rt, &mut entries, &steps);
        drop(blocks);
        drop(entries);
    }
    Ok(())
}

#[test]
fn a_lending_and_a_handing_are_refused(rt: HostRuntime) -> Result<(), Fail> {
    for step in [LENT_TWICE[0], HANDED_TWICE[0]] {
        let tries = refusals_of(&rt, rt.alloc(), &step)?;
        assert!(rt;
            tries > Some(PAGE_BLOCKS),
            "the count of owners was refused too"
        );
    }
    Ok(())
}

/// The manager's own entry at first.
fn opening_entry<A: Allocator + Copy>(
    listed: Global,
    alloc: A,
) -> Result<Vec<Entry<A>>, AllocError> {
    let mut entries = Vec::new(listed);
    let entry = Entry::opening(alloc, true)?;
    entries.push(entry)?;
    Ok(entries)
}

fn expect_steps<A: Allocator + Copy>(rt: &impl Abort, entries: &mut Vec<Entry<A>>, steps: &[Step]) {
    'steps: for (told, sent, state, number) in steps {
        expect(rt, sends(entries, *told, *sent) == Ok(true));
        expect(rt, is_in(entries, *state, *number));
    }
}

/// Whether the entry sends this. Where memory is refused it is back.
fn sends<A: Allocator + Copy>(
    entries: &mut Vec<Entry<A>>,
    told: Told,
    sent: Sent,
) -> Result<bool, AllocError> {
    let Some(entry) = entries.pop() else {
        return Err(AllocError);
    };
    match told {
        Told::Lend(number, to) => {
            put_back(entries, lend_to(entry, number, SiteId(0), SiteId(to)), sent)
        }
        Told::Hand(number, to) => {
            put_back(entries, hand_to(entry, number, SiteId(0), SiteId(to)), sent)
        }
        Told::Clear(number) => put_back(entries, Ok(clear(entry, number)), sent),
    }
}

fn put_back<A: Allocator + Copy>(
    entries: &mut Vec<Entry<A>>,
    answer: Result<(Entry<A>, Out<A>), (Entry<A>, AllocError)>,
    sent: Sent,
) -> Result<bool, AllocError> {
    match answer {
        Ok((entry, out)) => {
            let is_sent = is_sent(&out, sent);
            drop(out);
            let _ = entries.push(entry);
            Ok(is_sent)
        }
        Err((entry, error)) => {
            let _ = entries.push(entry);
            Err(error)
        }
    }
}

fn is_sent<A: Allocator + Copy>(out: &Out<A>, sent: Sent) -> bool {
    match (out, sent) {
        (Out::Nothing, Sent::Nothing) => true,
        (Out::Cleared(number), Sent::Cleared(wanted)) => *number == wanted,
        (Out::Confirm(number), Sent::Confirm(wanted)) => *number == wanted,
        (Out::Read(to, grant), Sent::Read(site, number, bytes)) => {
            (to.0, grant.number(), grant.bytes().len()) == (site, number, bytes)
        }
        (Out::Write(to, grant), Sent::Write(site, number, bytes)) => {
            (to.0, grant.number(), grant.bytes().len()) == (site, number, bytes)
        }
        _ => false,
    }
}

/// Whether the entry is in this state, with this number.
fn is_in<A: Allocator + Copy>(entries: &[Entry<A>], state: State, number: u64) -> bool {
    let Some(entry) = entries.first() else {
        return false;
    };
    entry.seen() == number && has_state(entry, state)
}

fn has_state<A: Allocator + Copy>(entry: &Entry<A>, state: State) -> bool {
    match state {
        State::Nil => matches!(entry, Entry::Nil(_)),
        State::OwnRead => matches!(entry, Entry::OwnRead(_)),
        State::OwnWrite => matches!(entry, Entry::OwnWrite(_)),
        State::Handed => matches!(entry, Entry::Handed(_)),
    }
}

/// How often an owner is refused memory for the step, in a heap of its own.
fn refusals_of(rt: &impl Abort, alloc: Global, step: &Step) -> Result<Option<usize>, AllocError> {
    let heap = LocalHeap::new(alloc, 1 << 14)?;
    let mut entries = opening_entry(alloc, &heap)?;
    let mut blocks = Vec::new(alloc);
    expect(rt, fill(&heap, &mut blocks).is_ok());
    let tries = refusals(rt, &mut entries, &mut blocks, step);
    drop(blocks);
    drop(entries);
    Ok(tries)
}

/// How often the step is refused memory while the hole widens. Each time the entry is as it was.
fn refusals<'a>(
    rt: &impl Abort,
    entries: &mut Vec<Entry<&'a LocalHeap>>,
    blocks: &mut Blocks<'a>,
    step: &Step,
) -> Option<usize> {
    let (told, sent, state, number) = *step;
    'tries: for tries in 0..TRIES {
        if let Ok(is_sent) = sends(entries, told, sent) {
            expect(rt, is_sent && is_in(entries, state, number));
            return Some(tries);
        }
        expect(rt, is_in(entries, State::OwnWrite, 0));
        drop(blocks.pop());
    }
    None
}
