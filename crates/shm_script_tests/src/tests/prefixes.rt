use super::{is_line_feed, replay_script};
use crate::tests::script_fixtures::{Script, going_back, losses, pages, segments};
use shm_debug::DebugFault;
use std::alloc::{AllocError, Global};
use std::process::Abort;
use std::test::Fail;

/// A script is cut off after each of its bytes: its whole lines are told what they are told in the whole script.
fn every_prefix_plays(rt: &impl Abort, alloc: Global, script: &Script) -> Result<(), AllocError> {
    let mut front = Vec::new(alloc);
    let mut text = Vec::new(alloc);
    let told = script.text.split_inclusive(is_line_feed);
    let lines = script.input.split_inclusive(is_line_feed);
    for (number, (line, told)) in (1..script.lines.saturating_add(1)).zip(lines.zip(told)) {
        ends_amid(rt, alloc, number, &mut front, line, &text)?;
        text.extend_from_slice(told)?;
        plays_to(rt, alloc, &front, &text);
    }
    assert_eq!(rt; front.as_slice(), script.input);
    assert_eq!(rt; text.as_slice(), script.text);
    Ok(())
}

/// Before each byte of the line the script ends: it has no such line, and that is the fault. The line joins the front.
fn ends_amid(
    rt: &impl Abort,
    alloc: Global,
    number: u64,
    front: &mut Vec<u8>,
    line: &[u8],
    told: &[u8],
) -> Result<(), AllocError> {
    for (at, byte) in line.iter().enumerate() {
        if at > 0 || number == 1 {
            let (result, text) = replay_script(alloc, front);
            assert_eq!(rt; result, Err(DebugFault::BadLine(number)), "at {front:?}");
            assert_eq!(rt; text.as_slice(), told, "at {front:?}");
        }
        front.push(*byte)?;
    }
    Ok(())
}

fn plays_to(rt: &impl Abort, alloc: Global, script: &[u8], wanted: &[u8]) {
    let (result, text) = replay_script(alloc, script);
    assert_eq!(rt; text.as_slice(), wanted);
    assert!(rt; result.is_ok());
}

/// What is told of a script that is cut off are its whole lines; a line that is cut off, or a first line that isn't there, is bad.
#[test]
fn every_prefix_of_a_script(rt: HostRuntime) -> Result<(), Fail> {
    every_prefix_plays(&rt, rt.alloc(), &pages::FIRST_READ_FAULT)?;
    every_prefix_plays(&rt, rt.alloc(), &segments::SEGMENT_CALLS)?;
    every_prefix_plays(&rt, rt.alloc(), &going_back::LOST_REQUEST_AND_BACK)?;
    every_prefix_plays(&rt, rt.alloc(), &losses::SIXTEEN_WAIT)?;
    Ok(())
}
