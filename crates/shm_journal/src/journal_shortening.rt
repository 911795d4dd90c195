//! Writes a journal that begins with the state of its site.
ghost use Rattle.std.specs.Prelude.{◌≡◌, ◌++◌, ◌∷◌, [], ◌<◌, map, IfErr, IfOk, OnOk, string_bytes};
ghost use Rattle.shm_process.specs.NodeOf.{node_of};
ghost use Rattle.shm_state.specs.PartOf.{part_in};
ghost use Rattle.shm_journal.specs.Begun.{header_text, lines_text, state_text};
ghost use Rattle.shm_journal.specs.HeaderOf.{header_of};
ghost use Rattle.shm_journal.specs.Shortened.{AreTold, IsUnshortened, Shortens, ending_at};
ghost use Rattle.shm_journal.specs.StateLines.{IsEnding, OfMapping, OfPart, state_line};
ghost use Rattle.shm_journal.specs.StateOf.{ending_in, state_line_in};
ghost use Rattle.shm_parts.specs.Listed.{limit_held};

use crate::journal_header::Header;
use crate::shorten_fault::ShortenFault;
use crate::spelled_part::{have_lines, mappings_fit};
use crate::state_line::{Ending, StateLine};
use shm_place::{SiteId, Sites};
use shm_process::Node;
use shm_state::{Part, TakeFault, Told, tell_parts};
use shm_wire::Mapping;
use std::alloc::{AllocError, Allocator};

/// A journal that leads to the site as a restart leaves it: the header, and what the site keeps, as a state. The asks that wait and the counts of
/// lines are left out, as at any start.
pub fn shortened_journal<A: Allocator + Copy>(
    alloc: A,
    header: Header,
    node: &Node<A>,
) -> Result<String<A>, ShortenFault>
    requires sites { header.sites ≡ (node_of node.now).sites }
    requires me { header.me ≡ (node_of node.now).me }
    ensures text { IfOk result (λ text. Shortens (header_of header) (node_of node.now) (string_bytes text)) }
    ensures why { IfErr result (λ fault. IsUnshortened fault (limit_held (node_of node.now).site.frames)) }
{
    let site = node.site();
    let sites = site.sites();
    let me = site.me();
    if site.holdings().limit().is_some() {
        return Err(ShortenFault::Limited);
    }
    if sites.count() != header.sites || me.0 != header.me {
        return Err(ShortenFault::Untold);
    }
    let mapped = node.mapped();
    mappings_fit(mapped);
    let Ok(parts) = tell_parts(alloc, site) else {
        return Err(ShortenFault::OutOfMemory);
    };
    if !have_lines(parts.as_slice()) {
        return Err(ShortenFault::Untold);
    }
    let Ok(text) = write_journal(alloc, header, parts.as_slice(), mapped, ending_of(node)) else {
        return Err(ShortenFault::OutOfMemory);
    };
    match take_parts(alloc, sites, me, parts) {
        Ok(()) => Ok(text),
        Err(TakeFault::OutOfMemory) => Err(ShortenFault::OutOfMemory),
        Err(_) => Err(ShortenFault::Untold),
    }
}

/// Where the node's steps go on.
fn ending_of<A: Allocator + Copy>(node: &Node<A>) -> Ending
    ensures at { ending_in result ≡ ending_at (node_of node.now) }
    ensures is { IsEnding (ending_in result) }
{
    Ending {
        clock: node.clock(),
        steps: node.steps(),
        caller: node.caller(),
    }
}

/// Tells the parts again, as a start will.
fn take_parts<A: Allocator + Copy>(
    alloc: A,
    sites: Sites,
    me: SiteId,
    parts: Vec<Part<A>, A>,
) -> Result<(), TakeFault>
    requires { me < sites }
    ensures { OnOk result (AreTold sites me (map part_in parts.items)) }
{
    let mut told = Told::new(alloc, sites, me);
    'parts: for part in parts {
        if let Err(fault) = told.take(part) {
            return Err(fault);
        }
    }
    Ok(())
}

/// The text of the header and of a state.
fn write_journal<A: Allocator + Copy>(
    alloc: A,
    header: Header,
    parts: &[Part<A>],
    mapped: &[Mapping],
    ending: Ending,
) -> Result<String<A>, AllocError>
    ensures { IfOk result (λ text. string_bytes text ≡ header_text (header_of header)
        ++ state_text (record { parts = map part_in parts.now; mapped = mapped.now; ending = ending_in ending })) }
{
    let mut out = String::new(alloc);
    write_header(header, &mut out)?;
    write_parts(parts, &mut out)?;
    write_mappings(mapped, &mut out)?;
    write_line(StateLine::Ending(ending), &mut out)?;
    Ok(out)
}

fn write_header<A: Allocator + Copy>(header: Header, out: &mut String<A>) -> Result<(), AllocError>
    ensures { OnOk result (string_bytes out.new ≡ string_bytes out.old ++ header_text (header_of header)) }
{
    write!(out, "{header}\n")
}

fn write_parts<A: Allocator + Copy>(
    parts: &[Part<A>],
    out: &mut String<A>,
) -> Result<(), AllocError>
    ensures { OnOk result (string_bytes out.new ≡ string_bytes out.old ++ lines_text (map OfPart (map part_in parts.now))) }
{
    'parts: for part in parts {
        write!(out, "{part}\n")?;
    }
    Ok(())
}

fn write_mappings<A: Allocator + Copy>(
    mapped: &[Mapping],
    out: &mut String<A>,
) -> Result<(), AllocError>
    ensures { OnOk result (string_bytes out.new ≡ string_bytes out.old ++ lines_text (map OfMapping mapped.now)) }
{
    'mapped: for mapping in mapped {
        write_line(StateLine::Mapping(*mapping), out)?;
    }
    Ok(())
}

fn write_line<A: Allocator + Copy>(
    line: StateLine<A>,
    out: &mut String<A>,
) -> Result<(), AllocError>
    ensures { OnOk result (string_bytes out.new ≡ string_bytes out.old ++ state_line (state_line_in line) ++ 10 ∷ []) }
{
    write!(out, "{line}\n")
}
