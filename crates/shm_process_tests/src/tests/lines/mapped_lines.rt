//! Lines that give a mapped page up or bring its bytes, and the texts that tell of mapped pages.
use super::is_line;
use shm_model::Kind;
use shm_place::{PageId, SegId};
use shm_wire::{
    Line, MappedText, Mapping, MappingsText, RevokeText, UnmapAsk, parse_line, parse_tell_line,
};
use std::alloc::{AllocError, Global};
use std::test::Fail;

/// A line of each form, and as a journal has it, without runs.
const UNMAPS: [&str; 6] = [
    "ask 0 a unmap 0 255 none",
    "ask 15 a unmap 63 0 read",
    "ask 0 a sync 0 255",
    "ask 0 a unmap 0 1 none 4096 AA==",
    "ask 0 a unmap 0 1 read 4097 AQID 8191 /w==",
    "ask 0 a sync 63 4294967295 4294967295 AA== 0 AQI=",
];

/// None of these: a mapping to write isn't what stays of one, a word too few and one too many, a run of no bytes and one past the last
/// offset, and a byte in another spelling.
const NO_UNMAPS: [&str; 9] = [
    "ask 0 a unmap 0 0 write",
    "ask 0 a unmap 0 0",
    "ask 0 a sync 0",
    "ask 0 a sync 0 0 none",
    "ask 0 a unmap 0 0 none 5",
    "ask 0 a unmap 0 0 none 5 AA== ",
    "ask 0 a sync 0 0 5 ",
    "ask 0 a sync 0 0 4294967295 AQI=",
    "ask 0 a sync 0 0 5 AB==",
];

/// What the line is printed as, if it is an unmap's.
fn printed(alloc: Global, line: &str) -> Result<Option<String>, AllocError> {
    match parse_line(alloc, line.as_bytes())? {
        Some(Line::Unmap(unmap)) => Ok(Some(format!(in alloc; "{unmap}")?)),
        _ => Ok(None),
    }
}

#[test]
fn mappings_that_are_given_up_are_printed_as_they_were_read(rt: HostRuntime) -> Result<(), Fail> {
    for line in UNMAPS {
        let printed = printed(rt.alloc(), line)?;
        assert_eq!(rt; printed.as_deref(), Some(line));
        assert!(rt; parse_tell_line(line.as_bytes()).is_none(), "at {line}");
    }
    Ok(())
}

#[test]
fn lines_that_give_up_no_mapping(rt: HostRuntime) -> Result<(), Fail> {
    for line in NO_UNMAPS {
        assert!(rt; !is_line(rt.alloc(), line.as_bytes())?, "at {line}");
    }
    Ok(())
}

/// Whether the unmap brings three bytes and one, each run to its place.
fn brings_two_runs(unmap: &UnmapAsk) -> bool {
    let [first, last] = unmap.runs.as_slice() else {
        return false;
    };
    let one: [u8; 3] = [1, 2, 3];
    let two: [u8; 1] = [255];
    first.offset == 4097
        && first.bytes.as_slice() == one.as_slice()
        && last.offset == 8191
        && last.bytes.as_slice() == two.as_slice()
}

#[test]
fn what_an_unmap_brings_is_read_run_by_run(rt: HostRuntime) -> Result<(), Fail> {
    let line = b"ask 3 a unmap 7 1 read 4097 AQID 8191 /w==".as_slice();
    let Some(Line::Unmap(unmap)) = parse_line(rt.alloc(), line)? else {
        return Err(Fail::new("an unmap's line"));
    };
    assert_eq!(rt; (unmap.site.0, unmap.at, unmap.index), (3, 7, 1));
    assert!(rt; unmap.keeps == Some(Kind::Read));
    assert!(rt; brings_two_runs(&unmap));
    Ok(())
}

#[test]
fn mapped_pages_are_told_in_words(rt: HostRuntime) -> Result<(), Fail> {
    let alloc = rt.alloc();
    let bytes: [u8; 4] = [0xfb, 0xff, 0xbf, 0xff];
    let mapped = format!(in alloc; "{}", MappedText(bytes.as_slice()))?;
    assert_eq!(rt; mapped.as_str(), "mapped +/+//w==");
    let mappings = vec![in alloc; mapping(63, Kind::Read), mapping(0, Kind::Write)]?;
    let told = format!(in alloc; "{}", MappingsText(mappings.as_slice()))?;
    assert_eq!(rt; told.as_str(), "mappings 63 255 read 0 255 write");
    let none = format!(in alloc; "{}", MappingsText(&mappings[..0]))?;
    assert_eq!(rt; none.as_str(), "mappings");
    Ok(())
}

#[test]
fn a_machine_is_told_what_to_give_up(rt: HostRuntime) -> Result<(), Fail> {
    let alloc = rt.alloc();
    let some = revoke(Some(Kind::Read));
    let line = format!(in alloc; "tell 1 * {some}")?;
    assert_eq!(rt; line.as_str(), "tell 1 * revoke 3 255 read");
    let Some(tell) = parse_tell_line(line.as_bytes()) else {
        return Err(Fail::new("a tell's line"));
    };
    assert_eq!(rt; (tell.tag.as_str(), tell.text), ("*", "revoke 3 255 read"));
    let all = revoke(None);
    let line = format!(in alloc; "{all}")?;
    assert_eq!(rt; line.as_str(), "revoke 3 255 none");
    Ok(())
}

fn page() -> PageId {
    PageId {
        seg: SegId(3),
        index: 255,
    }
}

fn mapping(at: u32, kind: Kind) -> Mapping {
    Mapping {
        at,
        page: page(),
        kind,
    }
}

fn revoke(keeps: Option<Kind>) -> RevokeText {
    RevokeText {
        page: page(),
        keeps,
    }
}
