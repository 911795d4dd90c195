ghost use Rattle.std.specs.Prelude.{◌≤◌};

mod examples;
mod fill_heap;
mod out_of_memory;
mod parsed_lines;
mod prefixes;
mod printed_text;
mod reader_and_writer_errors;
mod refused_lines;
mod replay_limits;
mod restarts;
mod script_fixtures;
mod session;
mod worked_scripts;
mod worlds;
mod wrong_line_hints;

use script_fixtures::Script;
use shm_debug::{DebugFault, Session, Summary, replay};
use shm_model::Opening;
use shm_place::{SiteId, Sites};
use shm_world::{Event, World};
use std::alloc::{Allocator, Global};
use std::process::Abort;
use std::test::Fail;

/// What a script answers, and the text that it writes.
fn replay_script(alloc: Global, script: &[u8]) -> (Result<Summary, DebugFault>, Vec<u8>) {
    let mut reader = script;
    let mut text = Vec::new(alloc);
    let result = replay(alloc, &mut reader, &mut text);
    (result, text)
}

/// Replays a script, and expects its text and its end.
fn plays(rt: &impl Abort, alloc: Global, script: &Script) {
    let (result, text) = replay_script(alloc, script.input);
    assert_eq!(rt; text.as_slice(), script.text, "{}", script.name);
    assert_eq!(rt; result, Ok(summary_of(script)), "{}", script.name);
}

/// What the replay of a script answers.
fn summary_of(script: &Script) -> Summary {
    Summary {
        lines: script.lines,
        events: script.events,
        sent: script.sent,
    }
}

fn is_line_feed(byte: &u8) -> bool {
    *byte == b'\n'
}

/// So many lines of a text, from its beginning.
fn first_lines(text: &[u8], lines: usize) -> &[u8] {
    let mut left = lines;
    for (at, byte) in text.iter().enumerate() {
        if left == 0 {
            return &text[..at];
        }
        if *byte == b'\n' {
            left -= 1;
        }
    }
    text
}

/// How many lines end within the first bytes of a script.
fn lines_within(script: &[u8], bytes: usize) -> usize {
    script
        .iter()
        .take(bytes)
        .filter(|byte| is_line_feed(byte))
        .count()
}

/// A session of so many sites; with segment 0 of one page, if it is preset.
fn open_session<A: Allocator + Copy>(
    alloc: A,
    sites: u32,
    preset: bool,
) -> Result<Session<A>, Fail> {
    let sites = Sites::new(sites).ok().ok_or("1 to 16 sites")?;
    if preset {
        return Ok(Session::new(alloc, Opening::preset(sites, 1))?);
    }
    Ok(Session::new(alloc, Opening::new(sites))?)
}

/// A world of so many sites, with segment 0 of so many pages attached everywhere.
fn preset<A: Allocator + Copy>(alloc: A, sites: u32, pages: u32) -> Result<World<A>, Fail>
    requires from { 1 ≤ pages }
    requires to { pages ≤ 256 }
{
    let sites = Sites::new(sites).ok().ok_or("1 to 16 sites")?;
    Ok(World::preset(alloc, sites, pages)?)
}

fn load(site: u32, at: u32, offset: u32) -> Event {
    let site = SiteId(site);
    Event::Load { site, at, offset }
}

fn store(site: u32, at: u32, offset: u32, byte: u8) -> Event {
    let site = SiteId(site);
    Event::Store {
        site,
        at,
        offset,
        byte,
    }
}
