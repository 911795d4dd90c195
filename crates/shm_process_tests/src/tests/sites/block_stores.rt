//! Blocks that are stored: many stores that one caller asks for at once, and is told of once.
use crate::tests::sites::exchanges::{
    Exchange, Records, answers, asks_waiting, counts, first_astray, new_desks, page_line,
};
use shm_process::Desk;
use shm_wire::{Line, parse_line, parse_tell_line};
use std::alloc::{AllocError, Global};
use std::test::Fail;

/// What callers are told once these lines, and all that the sites send for them, have come to each site.
fn told_in_all(alloc: Global, desks: &mut [Desk], lines: &str) -> Result<String, AllocError> {
    let mut told = String::new(alloc);
    let mut coming = String::from_str(alloc, lines)?;
    'rounds: for _ in 0..20 {
        coming = carried(alloc, desks, coming.as_str())?;
        push_told(&mut told, coming.as_str())?;
    }
    Ok(told)
}

/// Adds those of the lines that tell a caller something.
fn push_told(told: &mut String, lines: &str) -> Result<(), AllocError> {
    'lines: for line in lines.lines() {
        if line.starts_with("tell ") {
            told.push_str(line)?;
            told.push_str("\n")?;
        }
    }
    Ok(())
}

/// What the sites tell of these lines.
fn carried(alloc: Global, desks: &mut [Desk], lines: &str) -> Result<String, AllocError> {
    let mut output = String::new(alloc);
    'desks: for desk in desks.iter_mut() {
        desk.clear();
        desk.take(lines.as_bytes())?;
        output.push_str(desk.output())?;
    }
    Ok(output)
}

/// Lines, and what callers are told of them.
type Told<'a> = (&'a str, &'a str);

/// The first of these that isn't told so, from 0.
fn first_untold(
    alloc: Global,
    desks: &mut [Desk],
    all: &[Told<'_>],
) -> Result<Option<usize>, AllocError> {
    'all: for (number, (lines, told)) in all.iter().enumerate() {
        if told_in_all(alloc, desks, lines)?.as_str() != *told {
            return Ok(Some(number));
        }
    }
    Ok(None)
}

/// The bytes are 7, 255, 0 and 16.
#[test]
fn a_block_is_stored_and_told_once_and_recorded_in_one_entry(rt: HostRuntime) -> Result<(), Fail> {
    let mut desks = new_desks(rt.alloc(), 1)?;
    let exchanges = [Exchange {
        site: 0,
        lines: "ask 0 a write 0 5 B/8AEA==\n",
        output: "tell 0 a stored\n",
        records: Records::All(b"step 1 ask 0 a write 0 5 B/8AEA==\n"),
    }];
    assert_eq!(rt; first_astray(desks.as_mut_slice(), &exchanges)?, None);
    assert_eq!(rt; counts(desks.as_slice(), 0), Some((4, 1, 0, 0)));
    Ok(())
}

/// Page 0 is at site 0 and page 1 at site 1. Site 2 has neither, and stores at the end of one and the beginning of the other.
#[test]
fn a_block_waits_for_each_page_that_it_is_stored_to(rt: HostRuntime) -> Result<(), Fail> {
    let mut desks = new_desks(rt.alloc(), 3)?;
    let told = [
        ("ask 2 a write 0 4094 AQIDBAU=\n", "tell 2 a stored\n"),
        (
            "ask 0 b read 0 4093 7\nask 1 c read 0 4096 1\n",
            "tell 1 c block Aw==\ntell 0 b block AAECAwQFAA==\n",
        ),
    ];
    assert_eq!(rt;
        first_untold(rt.alloc(), desks.as_mut_slice(), &told)?,
        None
    );
    assert_eq!(rt; asks_waiting(desks.as_slice(), 2), Some(0));
    Ok(())
}

/// The segment has four pages. The answers, which come back on the stream, are passed over.
#[test]
fn a_block_that_is_refused_leaves_what_was_stored_before(rt: HostRuntime) -> Result<(), Fail> {
    let mut desks = new_desks(rt.alloc(), 1)?;
    let told = [
        ("ask 0 a write 0 16382 AQIDBA==\n", "tell 0 a refused 11\n"),
        ("ask 0 b read 0 16381 3\n", "tell 0 b block AAEC\n"),
        ("ask 0 c write 1 0 AQ==\n", "tell 0 c refused 9\n"),
    ];
    assert_eq!(rt;
        first_untold(rt.alloc(), desks.as_mut_slice(), &told)?,
        None
    );
    assert_eq!(rt; counts(desks.as_slice(), 0), Some((7, 3, 3, 0)));
    Ok(())
}

/// 64 loads wait for one page.
fn crowd(desks: &mut [Desk], site: usize) -> Result<(), AllocError> {
    let Some(desk) = desks.get_mut(site) else {
        return Ok(());
    };
    'asks: for _ in 0..64 {
        desk.take(b"ask 1 a load 0 2\n".as_slice())?;
    }
    Ok(())
}

#[test]
fn a_block_that_finds_no_room_is_not_stored(rt: HostRuntime) -> Result<(), Fail> {
    let mut desks = new_desks(rt.alloc(), 2)?;
    crowd(desks.as_mut_slice(), 1)?;
    let lines = "ask 1 b write 0 4096 AQ==\nask 0 b write 0 0 AQ==\n";
    assert!(rt; answers(desks.as_mut_slice(), 1, lines, "tell 1 b waiting\n")?);
    assert_eq!(rt; counts(desks.as_slice(), 1), Some((64, 64, 2, 64)));
    Ok(())
}

/// Restarts the site, unless it has no clock left for that.
fn restart(desks: &mut [Desk], site: usize) -> Result<(), AllocError> {
    let Some(desk) = desks.get_mut(site) else {
        return Ok(());
    };
    if desk.node().clock() < u64::MAX {
        desk.restart()?;
    }
    Ok(())
}

/// A write that waits for a page is forgotten at a restart.
#[test]
fn a_restart_forgets_a_block_that_is_to_be_stored(rt: HostRuntime) -> Result<(), Fail> {
    let mut desks = new_desks(rt.alloc(), 2)?;
    let lines = "ask 1 b write 0 4095 AQI=\n";
    let sent = "env 1 0 1 0 0 ask 0 0 1 write\n";
    assert!(rt; answers(desks.as_mut_slice(), 1, lines, sent)?);
    assert_eq!(rt; asks_waiting(desks.as_slice(), 1), Some(1));
    restart(desks.as_mut_slice(), 1)?;
    assert_eq!(rt; asks_waiting(desks.as_slice(), 1), Some(0));
    Ok(())
}

/// Bytes without their padding, with bits left over, or none; and offsets that there aren't.
const NO_BLOCKS: &str = "ask 0 a write 0 0 AQ\n\
    ask 0 a write 0 0 AQ=\n\
    ask 0 a write 0 0 AR==\n\
    ask 0 a write 0 0 \n\
    ask 0 a write 0 0\n\
    ask 0 a write 0 0 AQ== \n\
    ask 0 a write 0 4294967295 AQI=\n\
    ask 0 a write 0 4294967296 AQ==\n";

/// Before those comes a block of too many bytes.
#[test]
fn what_is_no_block_is_passed_over(rt: HostRuntime) -> Result<(), Fail> {
    let alloc = rt.alloc();
    let mut desks = new_desks(alloc, 1)?;
    let too_many = page_line(alloc, "ask 0 a write 0 0 ", 1365, "AAA=\n")?;
    assert!(rt; answers(desks.as_mut_slice(), 0, too_many.as_str(), "")?);
    assert!(rt; answers(desks.as_mut_slice(), 0, NO_BLOCKS, "")?);
    assert_eq!(rt; counts(desks.as_slice(), 0), Some((0, 0, 9, 0)));
    Ok(())
}

/// A page's bytes, at the last offsets of a page.
#[test]
fn a_whole_page_is_stored_by_one_line(rt: HostRuntime) -> Result<(), Fail> {
    let alloc = rt.alloc();
    let mut desks = new_desks(alloc, 1)?;
    let line = page_line(alloc, "ask 0 a write 0 4096 ", 1365, "AA==\n")?;
    assert!(rt; answers(desks.as_mut_slice(), 0, line.as_str(), "tell 0 a stored\n")?);
    assert_eq!(rt; counts(desks.as_slice(), 0), Some((4096, 1, 0, 0)));
    Ok(())
}

/// What the line is printed as, if it is a write's.
fn printed(alloc: Global, line: &str) -> Result<Option<String>, AllocError> {
    match parse_line(alloc, line.as_bytes())? {
        Some(Line::Write(write)) => Ok(Some(format!(in alloc; "{write}")?)),
        _ => Ok(None),
    }
}

#[test]
fn writes_are_printed_as_they_were_read(rt: HostRuntime) -> Result<(), Fail> {
    for line in [
        "ask 0 a write 0 0 AA==",
        "ask 15 a write 63 4294967293 AQID",
    ] {
        let printed = printed(rt.alloc(), line)?;
        assert_eq!(rt; printed.as_deref(), Some(line));
        assert!(rt; parse_tell_line(line.as_bytes()).is_none(), "at {line}");
    }
    Ok(())
}
