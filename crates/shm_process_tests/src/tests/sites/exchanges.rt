//! Desks that a test carries lines between, by a table.
use crate::tests::new_node;
use crate::tests::sites::{Counted, counts_of};
use shm_process::Desk;
use std::alloc::{AllocError, Global};

/// What a desk records of the lines that it is given.
#[derive(Drop)]
pub(super) enum Records<'a> {
    /// These lines alone.
    All(&'a [u8]),
    /// These lines at the end.
    Ending(&'a [u8]),
}

impl Records<'_> {
    fn are(&self, entries: &[u8]) -> bool {
        match self {
            Records::All(all) => entries == *all,
            Records::Ending(end) => entries.ends_with(end),
        }
    }
}

/// Lines for the desk of a site, what it then tells, and what it records of them.
#[derive(Drop)]
pub(super) struct Exchange<'a> {
    pub(super) site: usize,
    pub(super) lines: &'a str,
    pub(super) output: &'a str,
    pub(super) records: Records<'a>,
}

/// A desk for each of so many sites.
pub(super) fn new_desks(alloc: Global, sites: u32) -> Result<Vec<Desk>, AllocError> {
    let mut desks = Vec::new(alloc);
    for me in 0..sites {
        let desk = Desk::new(alloc, new_node(alloc, sites, me)?);
        desks.push(desk)?;
    }
    Ok(desks)
}

/// The first exchange that doesn't go as it should, from 0.
pub(super) fn first_astray(
    desks: &mut [Desk],
    exchanges: &[Exchange<'_>],
) -> Result<Option<usize>, AllocError> {
    for (number, exchange) in exchanges.iter().enumerate() {
        let Some(desk) = desks.get_mut(exchange.site) else {
            return Ok(Some(number));
        };
        if !goes(desk, exchange)? {
            return Ok(Some(number));
        }
    }
    Ok(None)
}

fn goes(desk: &mut Desk, exchange: &Exchange<'_>) -> Result<bool, AllocError> {
    desk.clear();
    desk.take(exchange.lines.as_bytes())?;
    Ok(desk.output() == exchange.output && exchange.records.are(desk.entries()))
}

/// Whether the desk of a site tells this of these lines.
pub(super) fn answers(
    desks: &mut [Desk],
    site: usize,
    lines: &str,
    told: &str,
) -> Result<bool, AllocError> {
    let Some(desk) = desks.get_mut(site) else {
        return Ok(false);
    };
    desk.clear();
    desk.take(lines.as_bytes())?;
    Ok(desk.output() == told)
}

/// What the node of a site's desk counts.
pub(super) fn counts(desks: &[Desk], site: usize) -> Option<Counted> {
    Some(counts_of(desks.get(site)?.node()))
}

/// How many asks wait at a site.
pub(super) fn asks_waiting(desks: &[Desk], site: usize) -> Option<usize> {
    Some(desks.get(site)?.node().asks_waiting())
}

/// A line with a page's base64: these groups of three bytes and so many of zeros, and then what else there is.
pub(super) fn page_line(
    alloc: Global,
    front: &str,
    zeros: usize,
    end: &str,
) -> Result<String, AllocError> {
    let mut line = String::from_str(alloc, front)?;
    for _ in 0..zeros {
        line.push_str("AAAA")?;
    }
    line.push_str(end)?;
    Ok(line)
}
