use shm_lines::{BadLine, Line, parse_line};
use shm_model::{Cred, Event, GetFlags, Mode, Op, Opening, Request};
use shm_place::{Key, PageId, SegId, SiteId, Sites};
use std::alloc::Global;
use std::test::Fail;

#[test]
fn bad_first_lines(rt: HostRuntime) -> Result<(), Fail> {
    let bad: [&[u8]; 15] = [
        b"",
        b" ",
        b"wait 0",
        b"sites",
        b"sites 0",
        b"sites 17",
        b"sites 2 ",
        b"sites 2 preset",
        b"sites 2 preset 0",
        b"sites 2 preset 257",
        b"sites 2 frames 1",
        b"sites 2 preset 1 frames",
        b"sites 2 preset 1 frames 0",
        b"sites 2 preset 1 frames 65537",
        b"sites 2 preset 1 frames 1 1",
    ];
    for line in bad {
        assert_eq!(rt; parse_line(line), Err(BadLine), "at {line:?}");
    }
    Ok(())
}

#[test]
fn bad_lines(rt: HostRuntime) -> Result<(), Fail> {
    let bad: [&[u8]; 21] = [
        b"load 0 0 0\r",
        b" load 0 0 0",
        b"load  0 0 0",
        b"load\t0 0 0",
        b"load 0 0 00",
        b"load 0 0 +1",
        b"load 0 0",
        b"load 0 0 4294967296",
        b"load 0 0 18446744073709551616",
        b"Load 0 0 0",
        b"store 0 0 0 256",
        b"store 0 0 0 07",
        b"get 0 0 0 3 256 60 c",
        b"get 0 0 0 3 256 0600 c",
        b"get 0 0 0 3 256 680 c",
        b"get 0 0 0 3 256 600 xc",
        b"get 0 0 0 3 256 600",
        b"attach 0 0 0 1 wr",
        b"detach 0",
        b"show 0",
        b"back -1",
    ];
    for line in bad {
        assert_eq!(rt; parse_line(line), Err(BadLine), "at {line:?}");
    }
    Ok(())
}

#[test]
fn first_lines(rt: HostRuntime) -> Result<(), Fail> {
    let sites = Sites::new(16)?;
    let cases: [(&str, Option<u32>, Option<u32>); 3] = [
        ("sites 16", None, None),
        ("sites 16 preset 256", Some(256), None),
        ("sites 16 preset 1 frames 65536", Some(1), Some(65_536)),
    ];
    for (text, preset, frames) in cases {
        let line = Line::Sites(Opening {
            sites,
            preset,
            frames,
        });
        assert!(rt; stands_for(rt.alloc(), text, line)?, "at {text}");
        assert!(rt; line.is_first() && !line.is_event(), "at {text}");
    }
    Ok(())
}

#[test]
fn events(rt: HostRuntime) -> Result<(), Fail> {
    let site = SiteId(1);
    let cases: [(&str, Event); 8] = [
        (
            "load 1 2 4294967295",
            Event::Load {
                site,
                at: 2,
                offset: 4_294_967_295,
            },
        ),
        (
            "store 1 0 4096 255",
            Event::Store {
                site,
                at: 0,
                offset: 4096,
                byte: 255,
            },
        ),
        ("deliver 10", Event::Deliver(10)),
        ("repeat 10", Event::Repeat(10)),
        ("lose 10", Event::Lose(10)),
        ("tick 1", Event::Tick { site }),
        ("restart 1", Event::Restart { site }),
        (
            "detach 1 7",
            Event::Begin {
                site,
                request: Request::DetachAt(7),
            },
        ),
    ];
    for (text, event) in cases {
        let line = Line::Event(event);
        assert!(rt; stands_for(rt.alloc(), text, line)?, "at {text}");
        assert!(rt; line.is_event() && !line.is_first(), "at {text}");
    }
    Ok(())
}

#[test]
fn segment_calls(rt: HostRuntime) -> Result<(), Fail> {
    let cred = Cred { uid: 10, gid: 20 };
    let id = SegId(3);
    let modes = [0o640, 0o007, 0o777].map(Mode::from_bits);
    let [Some(plain), Some(others), Some(all)] = modes else {
        return Err("a mode has nine bits".into());
    };
    let cases: [(&str, Op); 7] = [
        ("get 1 10 20 5 300 640 cx", get_call(plain, 0o3000)),
        ("get 1 10 20 5 300 007 -", get_call(others, 0)),
        ("attach 1 10 20 3 ro", Op::Attach { cred, id, ro: true }),
        (
            "attach 1 10 20 3 rw",
            Op::Attach {
                cred,
                id,
                ro: false,
            },
        ),
        ("remove 1 10 20 3", Op::Remove { cred, id }),
        (
            "set 1 10 20 3 11 21 777",
            Op::Set {
                cred,
                id,
                uid: 11,
                gid: 21,
                mode: all,
            },
        ),
        ("stat 1 10 20 3", Op::Stat { cred, id }),
    ];
    for (text, op) in cases {
        let event = Event::Begin {
            site: SiteId(1),
            request: Request::Op(op),
        };
        assert!(rt;
            stands_for(rt.alloc(), text, Line::Event(event))?,
            "at {text}"
        );
    }
    Ok(())
}

fn get_call(mode: Mode, flags: u32) -> Op {
    Op::Get {
        cred: Cred { uid: 10, gid: 20 },
        key: Key(5),
        size: 300,
        mode,
        flags: GetFlags(flags),
    }
}

#[test]
fn lines_that_are_no_events(rt: HostRuntime) -> Result<(), Fail> {
    let page = PageId {
        seg: SegId(3),
        index: 255,
    };
    let cases: [(&str, Line); 2] = [("show 3 255", Line::Show(page)), ("back 0", Line::Back(0))];
    for (text, line) in cases {
        assert!(rt; stands_for(rt.alloc(), text, line)?, "at {text}");
        assert!(rt; !line.is_first() && !line.is_event(), "at {text}");
        assert!(rt; line.may_stand(2) && !line.may_stand(1), "at {text}");
    }
    Ok(())
}

/// Whether the text is read as this line, and the line printed as this text.
fn stands_for(alloc: Global, text: &str, line: Line) -> Result<bool, Fail> {
    let printed = format!(in alloc; "{line}")?;
    Ok(parse_line(text.as_bytes()) == Ok(line) && printed.as_str() == text)
}
