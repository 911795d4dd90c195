//! Lines that others spelled, and lines that are none.
use super::is_line;
use linked_list_allocator::LocalHeap;
use shm_parts::{EntryNote, Message, Note};
use shm_wire::{Ask, Line, parse_line, parse_tell_line};
use std::alloc::{AllocError, Allocator, Global};
use std::test::Fail;

/// One line of each kind of message that brings no page.
const PLAIN: [&str; 14] = [
    "env 1 0 7 3 0 ask 2 255 18446744073709551615 write",
    "env 0 2 8 4 1 clear 0 3 5",
    "env 2 0 9 0 0 cleared 0 3 5",
    "env 0 1 10 5 2 hand 0 3 5 read 2",
    "env 1 0 11 6 0 confirm 0 3 5",
    "env 1 0 12 7 0 call 4 get 10 20 5 300 640 cx",
    "env 1 0 12 7 0 call 4 attach 10 20 1 ro",
    "env 1 0 12 7 0 call 4 detach id 1",
    "env 0 1 13 8 0 reply 4 id 1",
    "env 0 1 13 8 0 reply 4 attached 300 rw",
    "env 0 1 13 8 0 reply 4 stat 5 10 20 10 20 640 300 1 live",
    "env 0 1 13 8 0 reply 4 refused eidrm",
    "env 0 1 14 9 0 purge 1",
    "env 1 0 15 9 0 purged 1",
];

/// No envelopes: a number with a leading zero, a kind, a mode and a page's bytes that are none, a word too many and one too few.
const BAD: [&str; 8] = [
    "env 1 0 07 3 0 clear 0 3 5",
    "env 1 0 7 3 0 clears 0 3 5",
    "env 1 0 7 3 0 call 4 set 0 0 1 0 0 0640",
    "env 1 0 7 3 0 page 0 3 5 read AAAA",
    "env 1 0 7 3 0 clear 0 3 5 6",
    "env 1 0 7 3 clear 0 3 5",
    "env 1 0 18446744073709551616 3 0 clear 0 3 5",
    "ask 1 0 7 3 0 clear 0 3 5",
];

/// A line of each form that a caller may ask in.
const ASKS: [&str; 18] = [
    "ask 0 a load 0 4096",
    "ask 15 ~!tag~ store 63 4294967295 255",
    "ask 1 t try-load 0 4096",
    "ask 1 t try-store 63 4294967295 255",
    "ask 1 t read 63 4294967295 1",
    "ask 1 t read 0 0 4096",
    "ask 1 t get 10 20 5 300 640 -",
    "ask 1 t attach 10 20 1 rw",
    "ask 1 t detach 2",
    "ask 1 t remove 10 20 1",
    "ask 1 t set 10 20 1 11 21 777",
    "ask 1 t stat 10 20 1",
    "ask 1 t tick",
    "ask 1 t show 3 255",
    "ask 1 t map 63 255 read",
    "ask 1 t map 0 0 write",
    "ask 1 t mappings",
    "ask 1 12345678901234567890123456789012 tick",
];

/// No asks: no tag, one of 33 bytes and one with a byte that isn't ASCII, a blank too many, blocks of no byte, of more than a page and with
/// a byte behind the last offset, a mapping of no kind, and the words of other lines.
const NO_ASKS: [&[u8]; 13] = [
    b"ask 1 tick",
    b"ask 1 123456789012345678901234567890123 tick",
    b"ask 1 \xc3\xa9 tick",
    b"ask 1 t tick ",
    b"ask 1 t read 0 0 0",
    b"ask 1 t read 0 0 4097",
    b"ask 1 t read 0 4294967295 2",
    b"ask 1 t map 0 0 none",
    b"ask 1 t mappings 0",
    b"ask 1 t detach id 2",
    b"ask 1 t restart",
    b"1 t tick",
    b"tell 1 t tick",
];

/// What the line is printed as, if it is an envelope's.
fn printed_envelope(alloc: Global, line: &str) -> Result<Option<String>, AllocError> {
    match parse_line(alloc, line.as_bytes())? {
        Some(Line::Envelope(sent)) => Ok(Some(format!(in alloc; "{sent}")?)),
        _ => Ok(None),
    }
}

/// What the line asks, if it is an ask's.
fn read_ask(alloc: Global, line: &str) -> Result<Option<Ask>, AllocError> {
    let read = parse_line(alloc, line.as_bytes())?;
    match &read {
        Some(Line::Ask(ask)) => Ok(Some(*ask)),
        _ => Ok(None),
    }
}

#[test]
fn messages_are_printed_as_they_were_read(rt: HostRuntime) -> Result<(), Fail> {
    for line in PLAIN {
        let printed = printed_envelope(rt.alloc(), line)?;
        assert_eq!(rt; printed.as_deref(), Some(line));
        assert!(rt; parse_tell_line(line.as_bytes()).is_none(), "at {line}");
    }
    Ok(())
}

#[test]
fn lines_that_bring_no_message(rt: HostRuntime) -> Result<(), Fail> {
    for line in BAD {
        assert!(rt; !is_line(rt.alloc(), line.as_bytes())?, "at {line}");
    }
    Ok(())
}

#[test]
fn asks_are_printed_as_they_were_read(rt: HostRuntime) -> Result<(), Fail> {
    for line in ASKS {
        let ask = read_ask(rt.alloc(), line)?.ok_or("an ask's line")?;
        let printed = format!(in rt.alloc(); "{ask}")?;
        assert_eq!(rt; printed.as_str(), line);
        assert!(rt; parse_tell_line(line.as_bytes()).is_none(), "at {line}");
    }
    Ok(())
}

#[test]
fn lines_that_ask_nothing(rt: HostRuntime) -> Result<(), Fail> {
    for line in NO_ASKS {
        assert!(rt; !is_line(rt.alloc(), line)?, "at {line:?}");
    }
    Ok(())
}

#[test]
fn answers_are_printed_as_they_were_read(rt: HostRuntime) -> Result<(), Fail> {
    let alloc = rt.alloc();
    let line = "tell 3 t replied 1  id 0 ";
    let Some(answer) = parse_tell_line(line.as_bytes()) else {
        return Err(Fail::new("an answer's line"));
    };
    assert_eq!(rt;
        (answer.site.0, answer.tag.as_str(), answer.text),
        (3, "t", "replied 1  id 0 ")
    );
    let printed = format!(in alloc; "{answer}")?;
    assert_eq!(rt; printed.as_str(), line);
    assert!(rt; !is_line(alloc, line.as_bytes())?);
    let bad: [&[u8]; 4] = [
        b"tell 3 t",
        b"tell 3 t stored\r",
        b"ask 3 t stored",
        b"3 t stored",
    ];
    for line in bad {
        assert!(rt; parse_tell_line(line).is_none(), "at {line:?}");
    }
    Ok(())
}

/// The line that Python makes of a page, by `base64.b64encode(b'foobar' + bytes(4086) + b'\xfb\xff\xbf\xff')`: `Zm9vYmFy`, 5,448
/// times `A`, and `+/+//w==`.
fn page_line(alloc: Global, kind: &str) -> Result<String, AllocError> {
    let mut line = format!(in alloc; "env 2 1 9 4 1 page 3 255 6 {kind} Zm9vYmFy")?;
    for _ in 0..5448 {
        line.push_str("A")?;
    }
    line.push_str("+/+//w==")?;
    Ok(line)
}

/// Whether it is that page's message, to read or to write.
fn is_of_the_page<A: Allocator + Copy>(message: &Message<A>, kind: &str) -> bool {
    match message {
        Message::Of {
            note: Note::ToEntry(EntryNote::Read(grant)),
            ..
        } => kind == "read" && grant.number() == 6 && is_the_page(grant.bytes()),
        Message::Of {
            note: Note::ToEntry(EntryNote::Write(grant)),
            ..
        } => kind == "write" && grant.number() == 6 && is_the_page(grant.bytes()),
        _ => false,
    }
}

fn is_the_page(bytes: &[u8]) -> bool {
    let zeros = bytes.iter().filter(|byte| **byte == 0).count();
    let end: [u8; 4] = [0xfb, 0xff, 0xbf, 0xff];
    bytes.len() == 4096
        && zeros == 4086
        && bytes.starts_with(b"foobar".as_slice())
        && bytes.ends_with(end.as_slice())
}

/// Whether the line is read as an envelope that brings that page.
fn brings_the_page<A: Allocator + Copy>(
    alloc: A,
    line: &str,
    kind: &str,
) -> Result<bool, AllocError> {
    match parse_line(alloc, line.as_bytes())? {
        Some(Line::Envelope(sent)) => Ok(is_of_the_page(&sent.envelope.message, kind)),
        _ => Ok(false),
    }
}

#[test]
fn a_page_is_read_as_others_spell_it(rt: HostRuntime) -> Result<(), Fail> {
    let alloc = rt.alloc();
    for kind in ["read", "write"] {
        let line = page_line(alloc, kind)?;
        let brings = brings_the_page(alloc, line.as_str(), kind)?;
        let printed = printed_envelope(alloc, line.as_str())?;
        assert!(rt; brings, "at {kind}");
        assert!(rt; printed.as_deref() == Some(line.as_str()), "at {kind}");
    }
    Ok(())
}

/// Whether the line brings the page to write; `None` where it isn't read with so many bytes of memory.
fn brings_it_in(alloc: Global, bytes: usize, line: &str) -> Result<Option<bool>, AllocError> {
    let heap = LocalHeap::new(alloc, bytes)?;
    Ok(brings_the_page(&heap, line, "write").ok())
}

#[test]
fn each_growth_of_a_page_is_refused_in_turn(rt: HostRuntime) -> Result<(), Fail> {
    let line = page_line(rt.alloc(), "write")?;
    'sizes: for size in 1..2000usize {
        if let Some(brings) = brings_it_in(rt.alloc(), size * 16, line.as_str())? {
            assert!(rt; brings, "refused memory isn't a bad line");
            assert!(rt;
                size > 512,
                "the page and its bytes as they came were refused too"
            );
            return Ok(());
        }
    }
    Err(Fail::new("no page was read"))
}
