//! What the audit says of deliveries between two sites.
use super::{Given, are_events, audited_alone, expect, fault, two_logs};
use shm_logs::{AuditFault, Event, Stamp};
use shm_place::SiteId;
use std::alloc::{AllocError, Allocator};
use std::test::Fail;

/// Site 1 asks site 0, which manages page 0, by its first step, of stamp 1.
const ASKING: [(Given, Stamp); 1] = [(Given::Load(0), Stamp::NONE)];

const NOTHING: [(Given, Stamp); 0] = [];

/// The delivery of what site 1 asks, under the stamp that it is said to have been sent with, from this place.
const fn delivery_of_ask(at: u64, place: usize) -> [(Given, Stamp); 1] {
    [(
        Given::Ask(1, 0),
        Stamp {
            at,
            index: 0,
            place,
        },
    )]
}

const EVENTS: [Event; 2] = [
    Event::Load {
        site: SiteId(1),
        at: 0,
        offset: 0,
    },
    Event::Repeat(0),
];

#[test]
fn a_delivery_of_what_nobody_sent_is_unsent(rt: HostRuntime) -> Result<(), Fail> {
    let given = [(Given::Ask(0, 1), Stamp::NONE)];
    let unsent = Some(AuditFault::Unsent {
        site: SiteId(1),
        index: 0,
    });
    expect(&rt, wrong_with(rt.alloc(), &NOTHING, &given)? == unsent);
    Ok(())
}

#[test]
fn a_delivery_from_another_place_is_unsent(rt: HostRuntime) -> Result<(), Fail> {
    let unsent = Some(AuditFault::Unsent {
        site: SiteId(0),
        index: 0,
    });
    expect(
        &rt,
        wrong_with(rt.alloc(), &delivery_of_ask(1, 1), &ASKING)? == unsent,
    );
    Ok(())
}

#[test]
fn a_delivery_stands_above_its_sender(rt: HostRuntime) -> Result<(), Fail> {
    let order = Some(AuditFault::StampOrder {
        site: SiteId(0),
        index: 0,
    });
    expect(
        &rt,
        wrong_with(rt.alloc(), &delivery_of_ask(0, 0), &ASKING)? == order,
    );
    let logs = two_logs(rt.alloc(), &delivery_of_ask(1, 0), &ASKING)?;
    let audited = audited_alone(rt.alloc(), 2, &logs);
    expect(&rt, are_events(&audited, &EVENTS));
    drop(audited);
    drop(logs);
    Ok(())
}

/// What is wrong where site 0 was given the first inputs and site 1 the second.
fn wrong_with<A: Allocator + Copy>(
    alloc: A,
    at_0: &[(Given, Stamp)],
    at_1: &[(Given, Stamp)],
) -> Result<Option<AuditFault>, AllocError> {
    let logs = two_logs(alloc, at_0, at_1)?;
    let audited = audited_alone(alloc, 2, &logs);
    let fault = fault(&audited);
    drop(audited);
    drop(logs);
    Ok(fault)
}
