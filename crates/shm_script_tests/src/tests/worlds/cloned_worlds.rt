use super::{answers_to, events_of, picture_of};
use crate::tests::preset;
use crate::tests::script_fixtures::pages::READER_BECOMES_WRITER;
use shm_world::Answer::{Byte, Stored, Waiting};
use shm_world::{Event, World};
use std::alloc::{AllocError, Global};
use std::process::Abort;
use std::test::Fail;

/// How many events of the script come before the copy: then a reader has become the writer, and the old owner has asked for a copy.
const BEFORE: usize = 16;

/// What happens to the world doesn't show on its copy, nor the other way round; and both give the same answers.
fn go_on_alone(
    rt: &impl Abort,
    alloc: Global,
    world: &mut World,
    events: &[Event],
) -> Result<(), AllocError> {
    let mut copy = world.copy()?;
    let before = picture_of(world);
    assert_eq!(rt; picture_of(&copy), before);
    let answers = answers_to(alloc, world, events)?;
    assert_eq!(rt; answers.last(), Some(&Byte(9)));
    let after = picture_of(world);
    assert_ne!(rt; after, before);
    assert_eq!(rt; picture_of(&copy), before);
    assert_eq!(rt; answers_to(alloc, &mut copy, events)?, answers);
    assert_eq!(rt; picture_of(&copy), after);
    assert_eq!(rt; picture_of(world), after);
    Ok(())
}

#[test]
fn a_world_and_its_copy_go_on_alone(rt: HostRuntime) -> Result<(), Fail> {
    let events = events_of(rt.alloc(), &READER_BECOMES_WRITER)?;
    let before = events.get(..BEFORE).ok_or("so many events")?;
    let further = events.get(BEFORE..).ok_or("so many events")?;
    let mut world = preset(rt.alloc(), 2, 1)?;
    let answers = answers_to(rt.alloc(), &mut world, before)?;
    assert_eq!(rt; answers.get(14..), Some([Stored, Waiting].as_slice()));
    go_on_alone(&rt, rt.alloc(), &mut world, further)?;
    Ok(())
}
