use super::{is_line_feed, open_session};
use crate::tests::script_fixtures::{Script, losses, pages};
use shm_debug::{Line, Session, parse_line};
use shm_model::State;
use shm_place::{PageId, SegId, SiteId};
use shm_world::{Answer, Event, World};
use std::alloc::Global;
use std::process::Abort;
use std::test::Fail;

/// How many events there are at most.
const EVENTS: u64 = 10_000;

/// How many rounds of ticks and deliveries there are at most.
const ROUNDS: usize = 100;

/// The page of the scripts.
const PAGE: PageId = PageId {
    seg: SegId(0),
    index: 0,
};

fn load(site: u32) -> Event {
    Event::Load {
        site: SiteId(site),
        at: 0,
        offset: 0,
    }
}

/// An event, which is not refused.
fn apply(rt: &impl Abort, session: &mut Session, event: &Event) -> Result<Answer, Fail> {
    let answer = session.apply(*event)?;
    assert!(rt; !matches!(answer, Answer::Refused(_)));
    Ok(answer)
}

/// Delivers each message that isn't gone, the oldest first. Whether there was one.
fn deliver_all(rt: &impl Abort, session: &mut Session) -> Result<bool, Fail> {
    let mut any = false;
    for number in 0..session.world().sent() {
        if session.world().envelope(number).is_some() {
            apply(rt, session, &Event::Deliver(number))?;
            any = true;
        }
    }
    Ok(any)
}

/// Ticks and deliveries, until a tick of all sites leaves nothing to deliver.
fn settle(rt: &impl Abort, session: &mut Session, sites: u32) -> Result<(), Fail> {
    for _ in 0..ROUNDS {
        for site in 0..sites {
            apply(rt, session, &Event::Tick { site: SiteId(site) })?;
        }
        if !deliver_all(rt, session)? {
            return Ok(());
        }
    }
    Err(Fail::new("messages are left"))
}

/// Applies the events of a script's first lines after the one that opens it, and answers the byte that was stored last.
fn run_first(
    rt: &impl Abort,
    session: &mut Session,
    script: &Script,
    lines: usize,
) -> Result<u8, Fail> {
    let mut stored = 0;
    for line in script.input.split(is_line_feed).skip(1).take(lines) {
        let line = parse_line(line).ok().ok_or("a bad line")?;
        if let Line::Event(event) = line {
            let answer = apply(rt, session, &event)?;
            stored = stored_by(&event, &answer).unwrap_or(stored);
        }
    }
    Ok(stored)
}

/// The byte that the event stored.
fn stored_by(event: &Event, answer: &Answer) -> Option<u8> {
    if !matches!(answer, Answer::Stored) {
        return None;
    }
    match event {
        Event::Store { byte, .. } => Some(*byte),
        _ => None,
    }
}

/// The site loads the byte, after a fault if it has no copy.
fn expect_byte(
    rt: &impl Abort,
    session: &mut Session,
    sites: u32,
    site: u32,
    byte: u8,
) -> Result<(), Fail> {
    if apply(rt, session, &load(site))? == Answer::Fault {
        settle(rt, session, sites)?;
    }
    assert_eq!(rt; apply(rt, session, &load(site))?, Answer::Byte(byte));
    Ok(())
}

/// One site owns the page, and the manager's book names it and is idle.
fn expect_one_owner(rt: &impl Abort, world: &World, sites: u32) -> Result<(), Fail> {
    let book = world.book(PAGE).ok_or("no such page")?;
    assert!(rt; book.running.is_none());
    for site in 0..sites {
        let shown = world.shown(SiteId(site), PAGE).ok_or("no such page")?;
        let owns = matches!(shown.state, State::OwnRead | State::OwnWrite);
        assert_eq!(rt; owns, book.owner == SiteId(site));
    }
    Ok(())
}

/// What is shown of the page has one owner.
fn expect_one_owner_shown(rt: &impl Abort, session: &Session) -> Result<(), Fail> {
    let text = session.show(PAGE)?;
    let owners = text.windows(4).filter(|word| *word == b":Own".as_slice());
    assert_eq!(rt; owners.count(), 1);
    assert!(rt; text.ends_with(b" idle".as_slice()));
    Ok(())
}

/// After so many lines of a script a site restarts: all is delivered, and all sites agree.
fn heals(
    rt: &impl Abort,
    alloc: Global,
    sites: u32,
    script: &Script,
    lines: usize,
    site: u32,
) -> Result<(), Fail> {
    let mut session = open_session(alloc, sites, true)?;
    let byte = run_first(rt, &mut session, script, lines)?;
    apply(rt, &mut session, &Event::Restart { site: SiteId(site) })?;
    settle(rt, &mut session, sites)?;
    for site in 0..sites {
        expect_byte(rt, &mut session, sites, site, byte)?;
    }
    settle(rt, &mut session, sites)?;
    expect_one_owner(rt, session.world(), sites)?;
    expect_one_owner_shown(rt, &session)?;
    assert!(rt; session.len() <= EVENTS);
    drop(session);
    Ok(())
}

/// A restart of each site after each line of a script.
fn every_restart_heals(
    rt: &impl Abort,
    alloc: Global,
    sites: u32,
    script: &Script,
) -> Result<(), Fail> {
    for lines in 0..script.lines as usize {
        for site in 0..sites {
            heals(rt, alloc, sites, script, lines, site)?;
        }
    }
    Ok(())
}

#[test]
fn a_restart_while_requests_wait(rt: HostRuntime) -> Result<(), Fail> {
    every_restart_heals(&rt, rt.alloc(), 4, &pages::QUEUED_READS_THEN_TWO_CLEARS)
}

#[test]
fn a_restart_while_copies_are_cleared(rt: HostRuntime) -> Result<(), Fail> {
    every_restart_heals(&rt, rt.alloc(), 3, &losses::MANAGER_RESTARTS_WHILE_CLEARING)
}
