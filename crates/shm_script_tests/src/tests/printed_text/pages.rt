use super::{Deliver, expect_bytes};
use crate::tests::{load, preset, store};
use shm_debug::print_page;
use shm_model::{Cred, Op, Request};
use shm_place::{PageId, SegId, SiteId};
use shm_world::Event::Begin;
use shm_world::{Event, World};
use std::alloc::{AllocError, Global};
use std::process::Abort;
use std::test::Fail;

fn expect_page(
    rt: &impl Abort,
    alloc: Global,
    world: &World,
    page: (u32, u32),
    wanted: &str,
) -> Result<(), AllocError> {
    let page = PageId {
        seg: SegId(page.0),
        index: page.1,
    };
    let text = print_page(alloc, world, page)?;
    expect_bytes(rt, &text, wanted);
    Ok(())
}

/// What is shown of the first page of segment 0 after these events.
fn expect_steps(
    rt: &impl Abort,
    alloc: Global,
    world: &mut World,
    events: &[Event],
    wanted: &str,
) -> Result<(), AllocError> {
    for event in events {
        world.step(*event)?;
    }
    expect_page(rt, alloc, world, (0, 0), wanted)
}

/// The same in a new world of so many sites.
fn expect_after(
    rt: &impl Abort,
    alloc: Global,
    sites: u32,
    events: &[Event],
    wanted: &str,
) -> Result<(), Fail> {
    let mut world = preset(alloc, sites, 1)?;
    let shown = expect_steps(rt, alloc, &mut world, events, wanted);
    drop(world);
    Ok(shown?)
}

#[test]
fn a_page_shows_its_sites_and_its_book(rt: HostRuntime) -> Result<(), Fail> {
    let events = [
        load(1, 0, 0),
        Deliver(0),
        Deliver(1),
        Deliver(2),
        Deliver(3),
    ];
    let table = [
        (0, "page 0:OwnWrite/0 1:Nil/0 owner 0 copies - t 0 idle"),
        (2, "page 0:OwnWrite/0 1:Nil/0 owner 0 copies - t 1 read 1"),
        (3, "page 0:OwnRead/1 1:Nil/0 owner 0 copies - t 1 read 1"),
        (4, "page 0:OwnRead/1 1:Copy/1 owner 0 copies - t 1 read 1"),
        (5, "page 0:OwnRead/1 1:Copy/1 owner 0 copies 1 t 1 idle"),
    ];
    for (count, wanted) in table.as_slice() {
        let some = events.get(..*count).ok_or("so many events")?;
        expect_after(&rt, rt.alloc(), 2, some, wanted)?;
    }
    Ok(())
}

#[test]
fn copies_are_listed_with_commas(rt: HostRuntime) -> Result<(), Fail> {
    let events = [
        load(2, 0, 0),
        Deliver(0),
        Deliver(1),
        Deliver(2),
        Deliver(3),
        load(1, 0, 0),
        Deliver(4),
        Deliver(5),
        Deliver(6),
        Deliver(7),
    ];
    let wanted = "page 0:OwnRead/2 1:Copy/2 2:Copy/1 owner 0 copies 1,2 t 2 idle";
    expect_after(&rt, rt.alloc(), 3, events.as_slice(), wanted)
}

#[test]
fn a_writer_takes_the_page_over(rt: HostRuntime) -> Result<(), Fail> {
    let events = [store(1, 0, 0, 7), Deliver(0), Deliver(1), Deliver(2)];
    let wanted = "page 0:Handed/1 1:OwnWrite/1 owner 0 copies - t 1 write 1";
    expect_after(&rt, rt.alloc(), 2, events.as_slice(), wanted)
}

#[test]
fn a_purged_page_has_no_book(rt: HostRuntime) -> Result<(), Fail> {
    let remove = Op::Remove {
        cred: Cred { uid: 0, gid: 0 },
        id: SegId(0),
    };
    let site = SiteId(0);
    let events = [
        Begin {
            site,
            request: Request::Op(remove),
        },
        Deliver(0),
        Deliver(1),
        Begin {
            site,
            request: Request::DetachAt(0),
        },
        Deliver(2),
        Deliver(3),
        Deliver(4),
    ];
    expect_after(
        &rt,
        rt.alloc(),
        1,
        events.as_slice(),
        "page 0:Purged/0 purged",
    )
}

#[test]
fn a_page_outside_the_limits_is_refused(rt: HostRuntime) -> Result<(), Fail> {
    let world = preset(rt.alloc(), 2, 1)?;
    let index = expect_page(&rt, rt.alloc(), &world, (0, 256), "refused 16");
    let segment = expect_page(&rt, rt.alloc(), &world, (131_072, 0), "refused 16");
    drop(world);
    index?;
    Ok(segment?)
}
