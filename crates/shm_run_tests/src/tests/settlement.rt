//! A fault of two sites that is served by a round, in two goes.
use shm_place::{PageId, SegId, SiteId, Sites};
use shm_progress::{deliver_all, oldest_from, settle};
use shm_world::{Access, Event, World};
use std::alloc::{AllocError, Allocator};
use std::process::Abort;
use std::test::Fail;

/// The site loads a byte of the first page.
fn load<A: Allocator + Copy>(world: &mut World<A>, site: SiteId) -> Result<(), AllocError> {
    world.step(Event::Load {
        site,
        at: 0,
        offset: 5,
    })?;
    Ok(())
}

/// The first page.
const PAGE: PageId = PageId {
    seg: SegId(0),
    index: 0,
};

/// The Ask and the one of the tick are handed over, and the Hand waits.
fn expect_cut<A: Allocator + Copy>(rt: &impl Abort, world: &mut World<A>) -> Result<(), Fail> {
    load(world, SiteId(1))?;
    assert_eq!(rt;
        (oldest_from(world, 0), oldest_from(world, 1)),
        (Some(0), None)
    );
    let cut = settle(world, 2)?;
    assert_eq!(rt; (cut.at_rest, cut.deliveries), (false, 2));
    assert_eq!(rt; oldest_from(world, 0), Some(2));
    assert_eq!(rt; world.access(SiteId(1), PAGE), Some(Access::Nil));
    Ok(())
}

/// The Hand, the Page and the Confirm are handed over.
fn expect_rest<A: Allocator + Copy>(rt: &impl Abort, world: &mut World<A>) -> Result<(), Fail> {
    let rest = deliver_all(world, 9)?;
    assert_eq!(rt; (rest.at_rest, rest.deliveries), (true, 3));
    assert_eq!(rt; world.access(SiteId(1), PAGE), Some(Access::Read));
    Ok(())
}

fn expect_service<A: Allocator + Copy>(rt: &impl Abort, world: &mut World<A>) -> Result<(), Fail> {
    expect_cut(rt, world)?;
    expect_rest(rt, world)
}

#[test]
fn a_fault_is_served(rt: HostRuntime) -> Result<(), Fail> {
    let sites = Sites::new(2).ok().ok_or("1 to 16 sites")?;
    let mut world = World::preset(rt.alloc(), sites, 1)?;
    expect_service(&rt, &mut world)
}
