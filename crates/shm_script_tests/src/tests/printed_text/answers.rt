use super::{Deliver, expect_bytes};
use crate::tests::{load, preset, store};
use shm_debug::{print_answer, tell_answer_line};
use shm_model::Answer::{Began, Byte, Dropped, Fault, Refused, Replied, Stored, Took, Waiting};
use shm_model::{Answer, Attached, Errno, Mode, Reply, Stat};
use shm_place::{Key, SegId};
use shm_text::{AnswerText, Text};
use shm_world::Event::Lose;
use shm_world::{Event, World};
use std::alloc::{AllocError, Global};
use std::process::Abort;
use std::test::Fail;

fn expect_text(
    rt: &impl Abort,
    alloc: Global,
    answer: &Answer,
    wanted: &str,
) -> Result<(), AllocError> {
    let answer = AnswerText(*answer);
    let text = format!(in alloc; "{answer}")?;
    assert_eq!(rt; text.as_str(), wanted);
    Ok(())
}

#[test]
fn each_answer_has_its_text(rt: HostRuntime) -> Result<(), Fail> {
    let table = [
        (Byte(200), "byte 200"),
        (Stored, "stored"),
        (Fault, "fault"),
        (Waiting, "waiting"),
        (Began(1), "began 1"),
        (Took, "took"),
        (Dropped, "dropped"),
        (Refused(9), "refused 9"),
    ];
    for (answer, wanted) in table.as_slice() {
        expect_text(&rt, rt.alloc(), answer, wanted)?;
    }
    Ok(())
}

/// The text of a segment call's end, under number 8.
fn expect_reply(
    rt: &impl Abort,
    alloc: Global,
    reply: Reply,
    attachment: Option<u32>,
    wanted: &str,
) -> Result<(), AllocError> {
    let answer = Replied {
        number: 8,
        reply,
        attachment,
    };
    expect_text(rt, alloc, &answer, wanted)
}

#[test]
fn each_reply_has_its_text(rt: HostRuntime) -> Result<(), AllocError> {
    let alloc = rt.alloc();
    expect_reply(&rt, alloc, Reply::Id(SegId(4)), None, "replied 8 id 4")?;
    expect_reply(&rt, alloc, Reply::Ok, None, "replied 8 ok")?;
    expect_reply(
        &rt,
        alloc,
        Reply::Refused(Errno::Eacces),
        None,
        "replied 8 error 1",
    )?;
    expect_reply(
        &rt,
        alloc,
        Reply::Refused(Errno::Eperm),
        None,
        "replied 8 error 7",
    )
}

fn attach_reply() -> Reply {
    Reply::Attached(Attached {
        size: 10,
        ro: false,
    })
}

#[test]
fn an_attach_has_its_attachment(rt: HostRuntime) -> Result<(), AllocError> {
    expect_reply(
        &rt,
        rt.alloc(),
        attach_reply(),
        Some(3),
        "replied 8 attached 3",
    )?;
    expect_reply(
        &rt,
        rt.alloc(),
        attach_reply(),
        None,
        "replied 8 attached -",
    )
}

/// What `stat` tells of a segment with this mode that is attached so often, and marked or not.
fn stat(mode: Mode, nattch: u64, marked: bool) -> Reply {
    Reply::Stat(Stat {
        key: Key(0),
        uid: 3,
        gid: 4,
        cuid: 1,
        cgid: 2,
        mode,
        size: 10,
        nattch,
        marked,
    })
}

#[test]
fn stat_tells_of_a_segment(rt: HostRuntime) -> Result<(), Fail> {
    let mode = Mode::from_bits(0o640).ok_or("a mode has nine bits")?;
    let marked = "replied 8 stat key 0 uid 3 gid 4 cuid 1 cgid 2 mode 640 size 10 nattch 1 marked";
    let live = "replied 8 stat key 0 uid 3 gid 4 cuid 1 cgid 2 mode 640 size 10 nattch 0 live";
    expect_reply(&rt, rt.alloc(), stat(mode, 1, true), None, marked)?;
    expect_reply(&rt, rt.alloc(), stat(mode, 0, false), None, live)?;
    Ok(())
}

/// Each event's line, of all envelopes that aren't gone.
fn expect_lines(
    rt: &impl Abort,
    alloc: Global,
    world: &mut World,
    table: &[(Event, &str)],
) -> Result<(), AllocError> {
    for (event, wanted) in table {
        let answer = world.step(*event)?;
        let line = print_answer(alloc, 2, &answer, world, 0)?;
        expect_bytes(rt, &line, wanted);
    }
    Ok(())
}

#[test]
fn a_line_tells_what_was_sent_and_is_not_gone(rt: HostRuntime) -> Result<(), Fail> {
    let table = [
        (store(0, 0, 0, 7), "2 stored\n"),
        (load(1, 0, 0), "2 fault m0>0:Ask\n"),
        (load(1, 0, 4096), "2 refused 11 m0>0:Ask\n"),
        (Deliver(0), "2 took m1>0:Hand\n"),
        (Lose(1), "2 took\n"),
    ];
    let mut world = preset(rt.alloc(), 2, 1)?;
    let told = expect_lines(&rt, rt.alloc(), &mut world, table.as_slice());
    drop(world);
    Ok(told?)
}

/// Two lines, in a text with room for one.
fn expect_two(rt: &impl Abort, text: &mut Text, world: &World) -> Result<(), AllocError> {
    text.tell(1, "ready")?;
    tell_answer_line(text, 2, &Stored, world, 0)?;
    expect_bytes(rt, text.as_bytes(), "1 ready\n2 stored\n");
    text.clear();
    assert_eq!(rt; text.len(), 0);
    Ok(())
}

fn expect_text_of_two(rt: &impl Abort, alloc: Global, world: &World) -> Result<(), AllocError> {
    let mut text = Text::new(alloc, 8, 8)?;
    let told = expect_two(rt, &mut text, world);
    drop(text);
    told
}

#[test]
fn a_text_grows_by_lines(rt: HostRuntime) -> Result<(), Fail> {
    let world = preset(rt.alloc(), 2, 1)?;
    let told = expect_text_of_two(&rt, rt.alloc(), &world);
    drop(world);
    Ok(told?)
}
