//! Envelopes that can't be for the site, and proper ones that nobody waits for.
use super::{
    Given, Sent, Told, expect, expect_answer, framed_site, give, look, preset_site, run, run_at,
};
use shm_model::{Kind, Op, Reply};
use shm_place::{SegId, SiteId};
use shm_site::{Answer, Message, Site, StepFault};
use std::alloc::Allocator;
use std::process::Abort;
use std::test::Fail;

/// A page that site 1 manages.
const HERE: u32 = 1;

/// A page that site 0 manages.
const THERE: u32 = 0;

/// A page that no segment has.
const NOWHERE: u32 = 257;

/// What site 1 of 2 can't have been sent: not to it, from no site, of a page that doesn't exist or that another site manages, a call at
/// another home, a purge that another home would send, a purge's answer that another home would have, segments that no home makes.
const FOREIGN: [Given; 16] = [
    Given::Told(0, 0, Told::Reply(1, Reply::Ok)),
    Given::Told(2, 1, Told::Reply(1, Reply::Ok)),
    Given::Told(0, 1, Told::Ask(THERE, 1, Kind::Read)),
    Given::Told(0, 1, Told::Ask(NOWHERE, 1, Kind::Read)),
    Given::Told(0, 1, Told::Clear(NOWHERE, 1)),
    Given::Told(0, 1, Told::Cleared(THERE, 1)),
    Given::Told(0, 1, Told::Cleared(NOWHERE, 1)),
    Given::Told(0, 1, Told::Hand(NOWHERE, 1, Kind::Read, 0)),
    Given::Told(0, 1, Told::Confirm(THERE, 1)),
    Given::Told(0, 1, Told::Confirm(NOWHERE, 1)),
    Given::Told(0, 1, Told::Call(1, Op::Detach { id: SegId(0) })),
    Given::Told(0, 1, Told::Purge(1)),
    Given::Told(0, 1, Told::Purge(131_072)),
    Given::Told(0, 1, Told::Purged(0)),
    Given::Told(0, 1, Told::Purged(131_073)),
    Given::Told(1, 1, Told::Purge(0)),
];

/// What nobody waits for: a request or call of number 0, which was never given, a Clear to an owner, a Hand to a site that isn't one, and
/// what answers no transaction, no call and no purge.
const IGNORED: [Given; 9] = [
    Given::Told(0, 1, Told::Ask(HERE, 0, Kind::Write)),
    Given::Told(0, 1, Told::Clear(HERE, 1)),
    Given::Told(0, 1, Told::Cleared(HERE, 1)),
    Given::Told(0, 1, Told::Hand(THERE, 1, Kind::Read, 0)),
    Given::Told(0, 1, Told::Hand(THERE, 1, Kind::Write, 0)),
    Given::Told(0, 1, Told::Confirm(HERE, 0)),
    Given::Told(0, 1, Told::Call(0, Op::Detach { id: SegId(1) })),
    Given::Told(0, 1, Told::Reply(1, Reply::Ok)),
    Given::Told(0, 1, Told::Purged(1)),
];

#[test]
fn what_cannot_be_for_the_site_comes_back(rt: HostRuntime) -> Result<(), Fail> {
    let mut site = preset_site(rt.alloc(), 2, 1)?;
    let mut outbox = Vec::new(rt.alloc());
    expect_unchanged(&rt, &mut site, &mut outbox, &FOREIGN, true);
    drop(outbox);
    drop(site);
    Ok(())
}

#[test]
fn what_nobody_waits_for_is_dropped(rt: HostRuntime) -> Result<(), Fail> {
    let mut site = preset_site(rt.alloc(), 2, 1)?;
    let mut outbox = Vec::new(rt.alloc());
    expect_unchanged(&rt, &mut site, &mut outbox, &IGNORED, false);
    drop(outbox);
    drop(site);
    Ok(())
}

/// Each envelope is refused as foreign, or dropped, and nothing changes.
fn expect_unchanged<A: Allocator + Copy>(
    rt: &impl Abort,
    site: &mut Site<A>,
    outbox: &mut Sent<A>,
    envelopes: &[Given],
    foreign: bool,
) {
    let before = look(site, outbox);
    'envelopes: for (place, given) in envelopes.iter().enumerate() {
        let made = give(site, outbox, given);
        let expected = if foreign {
            Err((StepFault::Foreign, ends(given)))
        } else {
            Ok(Answer::Dropped)
        };
        expect_answer(rt, place, made, expected);
        expect(rt, look(site, outbox) == before);
    }
}

/// Sender and receiver of the message.
fn ends(given: &Given) -> Option<(u32, u32)> {
    match *given {
        Given::Told(from, to, _) => Some((from, to)),
        _ => None,
    }
}

/// Site 0 lends its page, though nobody asked.
const LENT: [(Given, Answer); 2] = [
    (Given::Store(3, 7), Answer::Stored),
    (
        Given::Told(0, 0, Told::Hand(THERE, 5, Kind::Read, 1)),
        Answer::Took,
    ),
];

/// The page's bytes come to site 1, which has met nothing later: it takes them, and gives them up when it's told.
const TAKEN: [(Given, Answer); 5] = [
    (Given::Last, Answer::Took),
    (Given::Load(3), Answer::Byte(7)),
    (Given::Told(0, 1, Told::Clear(THERE, 5)), Answer::Took),
    (Given::Load(3), Answer::Byte(7)),
    (Given::Told(0, 1, Told::Clear(THERE, 6)), Answer::Took),
];

#[test]
fn bytes_that_nobody_asked_for_are_taken(rt: HostRuntime) -> Result<(), Fail> {
    let mut site = framed_site(rt.alloc())?;
    let mut outbox = Vec::new(rt.alloc());
    run_at(&rt, preset_site(rt.alloc(), 2, 0), &mut outbox, &LENT);
    rename(&mut outbox, NOWHERE);
    let foreign = give(&mut site, &mut outbox, &Given::Last);
    expect_answer(&rt, 0, foreign, Err((StepFault::Foreign, Some((0, 1)))));
    rename(&mut outbox, THERE);
    run(&rt, &mut site, &mut outbox, &TAKEN);
    drop(outbox);
    drop(site);
    Ok(())
}

/// A Clear under the greatest number, for which nothing later can come, and a Hand for a reader that isn't among the sites.
#[test]
fn the_greatest_number_and_a_reader_that_is_no_site(rt: HostRuntime) -> Result<(), Fail> {
    let cleared = [(
        Given::Told(0, 1, Told::Clear(THERE, u64::MAX)),
        Answer::Took,
    )];
    let handed = [(
        Given::Told(0, 0, Told::Hand(THERE, 1, Kind::Read, 7)),
        Answer::Took,
    )];
    let mut outbox = Vec::new(rt.alloc());
    run_at(&rt, preset_site(rt.alloc(), 2, 1), &mut outbox, &cleared);
    run_at(&rt, preset_site(rt.alloc(), 2, 0), &mut outbox, &handed);
    let receivers = (outbox.len(), receiver(&outbox, 0), receiver(&outbox, 1));
    drop(outbox);
    assert_eq!(rt; receivers, (2, Some(SiteId(0)), Some(SiteId(7))));
    Ok(())
}

/// For whom the envelope at this place is.
fn receiver<A: Allocator + Copy>(outbox: &Sent<A>, place: usize) -> Option<SiteId> {
    match outbox.get(place) {
        Some(envelope) => Some(envelope.to),
        None => None,
    }
}

/// The last envelope's bytes are said to be those of another page.
fn rename<A: Allocator + Copy>(outbox: &mut Sent<A>, index: u32) {
    if let Some(envelope) = outbox.last_mut() {
        readdress(&mut envelope.message, index);
    }
}

fn readdress<A: Allocator + Copy>(message: &mut Message<A>, index: u32) {
    if let Message::Of { page, .. } = message {
        page.index = index;
    }
}
