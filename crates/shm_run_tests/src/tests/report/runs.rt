//! Honest runs over several sites, which the audit accepts.
//!
//! Each site goes round by four lines: it stores a byte to a place of its own, loads it, stores its number to the common place of a page,
//! and loads from the common place of another. Its own places lie in pages that all sites use, and so do the common ones. What a site
//! loads from a place of its own doesn't depend on the schedule; a common place has the number of some site, or 0.
use super::report_run;
use std::alloc::{AllocError, Global};
use std::sync::Wait;
use std::test::Fail;
use std::thread::Threads;

const PAGES: u32 = 16;

const PAGE_BYTES: u32 = 4096;

/// The place in a page that all sites use. A site's own is at its number.
const COMMON: u32 = 100;

/// What a line asks for.
#[derive(Clone, Copy)]
enum Asked {
    StoreOwn { offset: u32, byte: u8 },
    LoadOwn { offset: u32, byte: u8 },
    StoreCommon { offset: u32 },
    LoadCommon { offset: u32 },
}

#[derive(Clone, Copy)]
struct Line {
    site: u8,
    asked: Asked,
}

impl Line {
    /// Of this site's turn. Each round of four turns goes to another page.
    fn of(site: u8, turn: u8) -> Line {
        let round = turn / 4;
        let page = (u32::from(round) + u32::from(site)) % PAGES * PAGE_BYTES;
        let other = (u32::from(round) + 3 * u32::from(site)) % PAGES * PAGE_BYTES;
        let offset = page + u32::from(site);
        let byte = round + 1;
        let asked = match turn % 4 {
            0 => Asked::StoreOwn { offset, byte },
            1 => Asked::LoadOwn { offset, byte },
            2 => Asked::StoreCommon {
                offset: page + COMMON,
            },
            _ => Asked::LoadCommon {
                offset: other + COMMON,
            },
        };
        Line { site, asked }
    }

    fn write(&self, text: &mut String) -> Result<(), AllocError> {
        let site = self.site;
        match self.asked {
            Asked::StoreOwn { offset, byte } => writeln!(text, "store {site} {offset} {byte}"),
            Asked::StoreCommon { offset } => writeln!(text, "store {site} {offset} {site}"),
            Asked::LoadOwn { offset, .. } => writeln!(text, "load {site} {offset}"),
            Asked::LoadCommon { offset } => writeln!(text, "load {site} {offset}"),
        }
    }

    /// Whether the line of this number may be answered so, where there are so many sites.
    fn may_say(
        &self,
        alloc: Global,
        sites: u8,
        number: u64,
        said: &[u8],
    ) -> Result<bool, AllocError> {
        match self.asked {
            Asked::StoreOwn { .. } => is_stored(alloc, number, said),
            Asked::StoreCommon { .. } => is_stored(alloc, number, said),
            Asked::LoadOwn { byte, .. } => is_byte(alloc, number, byte, said),
            Asked::LoadCommon { .. } => is_byte_below(alloc, number, sites, said),
        }
    }
}

fn is_stored(alloc: Global, number: u64, said: &[u8]) -> Result<bool, AllocError> {
    let wanted = format!(in alloc; "{number} stored")?;
    Ok(wanted.as_bytes() == said)
}

fn is_byte(alloc: Global, number: u64, byte: u8, said: &[u8]) -> Result<bool, AllocError> {
    let wanted = format!(in alloc; "{number} byte {byte}")?;
    Ok(wanted.as_bytes() == said)
}

fn is_byte_below(alloc: Global, number: u64, limit: u8, said: &[u8]) -> Result<bool, AllocError> {
    for byte in 0..limit {
        if is_byte(alloc, number, byte, said)? {
            return Ok(true);
        }
    }
    Ok(false)
}

/// So many lines: the sites take turns.
fn lines(alloc: Global, sites: u8, count: usize) -> Result<Vec<Line>, AllocError> {
    let mut all = Vec::new(alloc);
    for turn in 0..=255 {
        add_turn(&mut all, sites, turn, count)?;
    }
    Ok(all)
}

fn add_turn(all: &mut Vec<Line>, sites: u8, turn: u8, count: usize) -> Result<(), AllocError> {
    for site in 0..sites {
        if all.len() < count {
            all.push(Line::of(site, turn))?;
        }
    }
    Ok(())
}

fn workload(alloc: Global, lines: &[Line]) -> Result<String, AllocError> {
    let mut text = String::new(alloc);
    writeln!(text, "preset {PAGES}")?;
    for line in lines {
        line.write(&mut text)?;
    }
    Ok(text)
}

/// Whether the output has each line as it may be, and then the audit's, and nothing else.
fn is_right(alloc: Global, sites: u8, lines: &[Line], out: &[u8]) -> Result<bool, AllocError> {
    let mut said = out.split(|byte| *byte == b'\n');
    if said.next() != Some(b"1 ready".as_slice()) {
        return Ok(false);
    }
    for (place, line) in lines.iter().enumerate() {
        let Some(words) = said.next() else {
            return Ok(false);
        };
        if !line.may_say(alloc, sites, place as u64 + 2, words)? {
            return Ok(false);
        }
    }
    Ok(
        said.next() == Some(b"audit yes".as_slice())
            && said.next() == Some(b"".as_slice())
            && said.next() == None,
    )
}

/// What a workload of these lines writes, if the audit says yes.
fn written<R: Threads + Wait + Copy + Send + Sync + 'static>(
    rt: &R,
    alloc: Global,
    sites: u8,
    lines: &[Line],
    seed: u32,
) -> Result<Vec<u8>, Fail> {
    let text = workload(alloc, lines)?;
    let (answer, out) = report_run(rt, alloc, u32::from(sites), seed, text.as_bytes())?;
    match answer {
        Ok(()) => Ok(out),
        Err(_) => Err("the audit says yes".into()),
    }
}

/// Runs so many lines over so many sites, and looks at each line of what is written.
fn run<R: Threads + Wait + Copy + Send + Sync + 'static>(
    rt: &R,
    alloc: Global,
    sites: u8,
    count: usize,
    seed: u32,
) -> Result<(), Fail> {
    let lines = lines(alloc, sites, count)?;
    if lines.len() != count {
        return Err("so many lines".into());
    }
    let out = written(rt, alloc, sites, lines.as_slice(), seed)?;
    match is_right(alloc, sites, lines.as_slice(), out.as_slice())? {
        true => Ok(()),
        false => Err("each line is as it may be".into()),
    }
}

#[test]
fn sixteen_sites(rt: HostRuntime) -> Result<(), Fail> {
    run(&rt, rt.alloc(), 16, 1000, 1)
}

#[test]
fn ten_seeds(rt: HostRuntime) -> Result<(), Fail> {
    for seed in 0..10 {
        run(&rt, rt.alloc(), 4, 500, seed)?;
    }
    Ok(())
}

#[test]
fn ten_further_seeds(rt: HostRuntime) -> Result<(), Fail> {
    for seed in 10..20 {
        run(&rt, rt.alloc(), 4, 500, seed)?;
    }
    Ok(())
}
