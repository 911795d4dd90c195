//! Accesses of a stepped world that are made until they are answered.
use shm_stepped::{
    Answer, Asked, Cost, SiteId, Sites, Unanswered, World, access_until_done, settle,
};
use std::alloc::Allocator;
use std::process::Abort;
use std::test::Fail;

/// A store of byte 7 to the first place of the first page, which two sites share.
const STORE: Asked = Asked::Store {
    at: 0,
    offset: 0,
    byte: 7,
};

/// A load from there.
const LOAD: Asked = Asked::Load { at: 0, offset: 0 };

fn world<A: Allocator + Copy>(alloc: A) -> Result<World<A>, Fail> {
    let sites = Sites::new(2).ok().ok_or("1 to 16 sites")?;
    Ok(World::preset(alloc, sites, 1)?)
}

fn cost<A: Allocator + Copy>(
    world: &mut World<A>,
    site: u32,
    asked: Asked,
    answer: Answer,
) -> Result<Cost, Fail> {
    let done = access_until_done(world, SiteId(site), asked, 20)
        .ok()
        .ok_or("it still waits")?;
    if done.answer != answer {
        return Err("another answer".into());
    }
    Ok(done.cost)
}

/// What a store at site 0 costs, and a load at site 1 after it.
fn expect_costs<A: Allocator + Copy>(rt: &impl Abort, world: &mut World<A>) -> Result<(), Fail> {
    let stored = cost(world, 0, STORE, Answer::Stored)?;
    assert_eq!(rt; (stored.accesses, stored.events), (1, 1));
    let read = cost(world, 1, LOAD, Answer::Byte(7))?;
    assert_eq!(rt;
        (read.accesses, read.asks, read.hands, read.pages),
        (2, 1, 1, 1)
    );
    assert_eq!(rt;
        (read.confirms, read.clears, read.cleareds, read.others),
        (0, 0, 0, 0)
    );
    assert_eq!(rt; (read.ticks, read.events), (0, 5));
    Ok(())
}

#[test]
fn a_read_fault_costs_three_deliveries(rt: HostRuntime) -> Result<(), Fail> {
    let mut world = world(rt.alloc())?;
    expect_costs(&rt, &mut world)
}

/// What a store at site 1 has cost when its three deliveries are spent, if they are.
fn spent<A: Allocator + Copy>(world: &mut World<A>) -> Option<Cost> {
    match access_until_done(world, SiteId(1), STORE, 3) {
        Err(Unanswered::BudgetSpent(cost)) => Some(cost),
        _ => None,
    }
}

/// What such a store costs, and one after all has come to rest.
fn expect_spent<A: Allocator + Copy>(rt: &impl Abort, world: &mut World<A>) -> Result<(), Fail> {
    let Some(cut) = spent(world) else {
        return Err("the budget was spent".into());
    };
    assert_eq!(rt;
        (cut.accesses, cut.asks, cut.hands, cut.events),
        (1, 1, 1, 3)
    );
    settle(world, 20)?;
    let stored = cost(world, 1, STORE, Answer::Stored)?;
    assert_eq!(rt; (stored.accesses, stored.events), (1, 1));
    Ok(())
}

#[test]
fn a_budget_ends(rt: HostRuntime) -> Result<(), Fail> {
    let mut world = world(rt.alloc())?;
    expect_spent(&rt, &mut world)
}
