use super::{PAGE, answers_to, events_of};
use crate::tests::preset;
use crate::tests::script_fixtures::purges::PURGE_RESENT;
use shm_model::State;
use shm_place::SiteId;
use shm_world::Answer::Took;
use shm_world::Event::Deliver;
use shm_world::Shown;
use std::test::Fail;

/// How many events of the script destroy the segment.
const DESTROYED: usize = 7;

#[test]
fn a_purged_page_has_no_book(rt: HostRuntime) -> Result<(), Fail> {
    let events = events_of(rt.alloc(), &PURGE_RESENT)?;
    let destroyed = events.get(..DESTROYED).ok_or("so many events")?;
    let mut world = preset(rt.alloc(), 1, 1)?;
    answers_to(rt.alloc(), &mut world, destroyed)?;
    assert!(rt; world.book(PAGE).is_some());
    assert_eq!(rt; world.step(Deliver(4)), Ok(Took));
    assert!(rt; world.book(PAGE).is_none());
    let purged = Shown {
        state: State::Purged,
        seen: 0,
    };
    assert_eq!(rt; world.shown(SiteId(0), PAGE), Some(purged));
    Ok(())
}
