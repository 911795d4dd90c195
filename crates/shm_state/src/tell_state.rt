//! Tells a site's state: the parts of which the site is made again.
ghost use Rattle.std.specs.Prelude.{◌≡◌, [], IfErr, IfOk, OnOk};
ghost use Rattle.shm_model.specs.Step.{restart};
ghost use Rattle.shm_parts.specs.Holdings.{held_frames};
ghost use Rattle.shm_parts.specs.Listed.{limit_held};
ghost use Rattle.shm_site.specs.Site.{site_of};
ghost use Rattle.shm_site.specs.State.{site_from};
ghost use Rattle.shm_state.specs.Telling.{AreOrdered, IsUntold, said_by, told_of, with_home, with_pages};
ghost use Rattle.shm_state.specs.declared.told_stage.Stage.TheVariants as stage;

use crate::part::Part;
use crate::tell_calls::{tell_calls, tell_kept, tell_missing, tell_segments};
use crate::tell_fault::TellFault;
use crate::tell_pages::{tell_attachments, tell_books, tell_entries, tell_purged};
use shm_attach::Home;
use shm_site::Site;
use std::alloc::{AllocError, Allocator};

/// All parts of the site's state in their order. The site that they make is the one that a restart leaves.
pub fn tell_parts<A: Allocator + Copy>(
    alloc: A,
    site: &Site<A>,
) -> Result<Vec<Part<A>, A>, TellFault>
    ensures told { IfOk result (λ parts. site_from site.now.sites site.now.me (said_by parts.items) ≡ (restart (site_of site.now)).site) }
    ensures state { IfOk result (λ parts. said_by parts.items ≡ told_of site.now) }
    ensures order { IfOk result (λ parts. AreOrdered stage.Books parts.items) }
    ensures why { IfErr result (λ fault. IsUntold fault (limit_held (held_frames site.now.holdings.frames))) }
{
    if site.holdings().limit().is_some() {
        return Err(TellFault::Limited);
    }
    // What these promise of the site's places is needed below: each page, reply and attachment has one.
    let _entries = site.stored_count();
    let _held = site.holdings().stored_count();
    let _attached = site.holdings().attachments().get(0);
    let _kept = site.home().kept().replies();
    match tell_all(alloc, site) {
        Ok(parts) => Ok(parts),
        Err(_) => Err(TellFault::OutOfMemory),
    }
}

fn tell_all<A: Allocator + Copy>(alloc: A, site: &Site<A>) -> Result<Vec<Part<A>, A>, AllocError>
    ensures said { IfOk result (λ parts. said_by parts.items ≡ told_of site.now) }
    ensures order { IfOk result (λ parts. AreOrdered stage.Books parts.items) }
{
    let mut out = Vec::new(alloc);
    tell_calls(site.requests().last(), site.calls(), &mut out)?;
    tell_home(site.home(), &mut out)?;
    tell_pages(alloc, site, &mut out)?;
    Ok(out)
}

fn tell_home<A: Allocator + Copy>(
    home: &Home<A>,
    out: &mut Vec<Part<A>, A>,
) -> Result<(), AllocError>
    requires order { AreOrdered stage.Segments out.old.items }
    requires fresh { (said_by out.old.items).kept ≡ [] }
    ensures said { OnOk result (said_by out.new.items ≡ with_home home.now (said_by out.old.items)) }
    ensures order { OnOk result (AreOrdered stage.Kept out.new.items) }
{
    tell_segments(home.segments(), out)?;
    tell_missing(home.table(), out)?;
    tell_kept(&home.kept().replies(), out)
}

fn tell_pages<A: Allocator + Copy>(
    alloc: A,
    site: &Site<A>,
    out: &mut Vec<Part<A>, A>,
) -> Result<(), AllocError>
    requires order { AreOrdered stage.Purged out.old.items }
    requires fresh { (said_by out.old.items).attachments ≡ [] }
    ensures said { OnOk result (said_by out.new.items ≡ with_pages site.now (said_by out.old.items)) }
    ensures order { OnOk result (AreOrdered stage.Books out.new.items) }
{
    let held = site.holdings();
    tell_purged(held.purged(), out)?;
    tell_entries(alloc, held, out)?;
    tell_attachments(held.attachments(), out)?;
    tell_books(site.books(), site.me(), out)
}
