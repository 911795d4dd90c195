use super::script_fixtures::{Script, frames, going_back, losses, pages, purges, segments};
use super::{plays, replay_script};
use shm_debug::Summary;
use std::alloc::{AllocError, Global};
use std::process::Abort;
use std::test::Fail;

fn all_play(rt: &impl Abort, alloc: Global, scripts: &[Script]) {
    for script in scripts {
        plays(rt, alloc, script);
    }
}

#[test]
fn pages_come_and_go(rt: HostRuntime) {
    let scripts = [
        pages::FIRST_READ_FAULT,
        pages::PAGES_AT_MANAGERS,
        pages::OWNER_UPGRADES,
        pages::READER_BECOMES_WRITER,
        pages::QUEUED_READS_THEN_TWO_CLEARS,
        pages::PENDING_ORDER,
        pages::READ_TO_ITSELF,
        frames::FRAMES,
        frames::COPY_AGAIN,
        frames::DROPPED_COPY,
    ];
    all_play(&rt, rt.alloc(), scripts.as_slice());
}

#[test]
fn messages_are_lost_late_or_repeated(rt: HostRuntime) {
    let scripts = [
        losses::LOST_PAGE,
        losses::REPEATED_ASK,
        losses::REPEATED_HAND,
        losses::REPEATED_PAGE,
        losses::STALE_PAGE_AFTER_CLEAR,
        losses::REQUESTER_RESTARTS,
        losses::MANAGER_RESTARTS_WHILE_CLEARING,
        losses::TICK_ORDER,
        losses::SIXTEEN_WAIT,
    ];
    all_play(&rt, rt.alloc(), scripts.as_slice());
}

#[test]
fn segments_are_made_and_removed(rt: HostRuntime) {
    let scripts = [
        segments::SEGMENT_CALLS,
        segments::ORDERS,
        segments::GET,
        segments::CLASSES,
        segments::IDENTIFIERS,
        segments::MARKED,
        purges::REMOVAL,
        purges::PURGE_RESENT,
        purges::PURGE_AND_STALE_PAGE,
        purges::PURGE,
        purges::PURGE_ORDER,
    ];
    all_play(&rt, rt.alloc(), scripts.as_slice());
}

#[test]
fn events_are_taken_back(rt: HostRuntime) {
    let scripts = [
        going_back::LOST_REQUEST_AND_BACK,
        going_back::BACK_TO_THE_BEGINNING,
        going_back::BACK,
    ];
    all_play(&rt, rt.alloc(), scripts.as_slice());
}

/// 1,200 stores, each of its number's last eight bits; and their text.
fn many_stores(alloc: Global) -> Result<(String, String), AllocError> {
    let mut script = String::from_str(alloc, "sites 1 preset 1\n")?;
    let mut text = String::from_str(alloc, "1 ready\n")?;
    for number in 1..1201u32 {
        writeln!(script, "store 0 0 0 {}", number % 256)?;
        writeln!(text, "{} stored", number + 1)?;
    }
    Ok((script, text))
}

#[test]
fn events_are_taken_back_over_checkpoints(rt: HostRuntime) -> Result<(), Fail> {
    let (mut script, mut text) = many_stores(rt.alloc())?;
    script.push_str("back 50\nload 0 0 0\nback 1051\nload 0 0 0\n")?;
    text.push_str("1202 back 1150\n1203 byte 126\n1204 back 100\n1205 byte 100\n")?;
    let (result, told) = replay_script(rt.alloc(), script.as_bytes());
    assert!(rt; told.as_slice() == text.as_bytes());
    assert_eq!(rt;
        result,
        Ok(Summary {
            lines: 1205,
            events: 101,
            sent: 0
        })
    );
    Ok(())
}
