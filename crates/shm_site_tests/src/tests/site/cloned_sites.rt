//! Copies of sites.
use super::{Given, Sent, Told, expect, look, preset_site, run};
use shm_model::Kind;
use shm_site::{Answer, Site};
use std::alloc::{AllocError, Allocator};
use std::process::Abort;
use std::test::Fail;

#[test]
fn a_copy_goes_on_alone(rt: HostRuntime) -> Result<(), Fail> {
    let mut site = preset_site(rt.alloc(), 1, 0)?;
    let mut outbox = Vec::new(rt.alloc());
    let stored = [(Given::Store(4097, 7), Answer::Stored)];
    run(&rt, &mut site, &mut outbox, &stored);
    let copy = site.copy();
    apart(&rt, &mut site, copy, &mut outbox);
    drop(outbox);
    drop(site);
    Ok(())
}

/// What the copy takes the other doesn't see.
fn apart<A: Allocator + Copy>(
    rt: &impl Abort,
    site: &mut Site<A>,
    copy: Result<Site<A>, AllocError>,
    outbox: &mut Sent<A>,
) {
    match copy {
        Ok(mut copy) => {
            expect(rt, look(&copy, outbox) == look(site, outbox));
            run(rt, &mut copy, outbox, &AT_THE_COPY);
            run(rt, site, outbox, &AT_THE_SITE);
            drop(copy);
        }
        Err(_) => expect(rt, false),
    }
}

const AT_THE_COPY: [(Given, Answer); 3] = [
    (Given::Load(4097), Answer::Byte(7)),
    (Given::Store(4097, 9), Answer::Stored),
    (Given::Told(0, 0, Told::Ask(1, 1, Kind::Read)), Answer::Took),
];

const AT_THE_SITE: [(Given, Answer); 2] = [
    (Given::Load(4097), Answer::Byte(7)),
    (Given::Told(0, 0, Told::Confirm(1, 1)), Answer::Dropped),
];
