//! A site's holdings at first.
ghost use Rattle.std.specs.Prelude.{◌≡◌, ℕ, ◌≤◌, [], Option, Some, None, option_map, false, IfOk};
ghost use Rattle.shm_model.specs.Basics.{at};
ghost use Rattle.shm_model.specs.Site.{Site, untouched};
ghost use Rattle.shm_model.specs.World.{preset_attachment};
ghost use Rattle.shm_attach.specs.Attachments.{attachments_of};
ghost use Rattle.shm_parts.specs.Holdings.{framed, held_frames, with_holdings};
ghost use Rattle.shm_parts.specs.Purged.{purged_of};

use crate::frame_order::Frames;
use crate::holdings::Holdings;
use crate::likely_entry_places::FirstPlaces;
use crate::page_entries::Entries;
use crate::purged_segments::Purged;
use shm_attach::Attachments;
use shm_place::{PAGE_BYTES, PAGES, SegId, SiteId, Sites};
use std::alloc::{AllocError, Allocator};

impl<A: Allocator + Copy> Holdings<A> {
    /// Nothing is attached, purged or counted, and every page is untouched.
    pub fn new(alloc: A, sites: Sites, me: SiteId) -> Holdings<A>
        ensures held { (site : Site) → with_holdings sites me result site
            ≡ record site { entries = untouched sites me; attachments = λ _. None; purged = λ _. false; frames = None } }
        ensures seat { (result.sites ≡ sites) × (result.me ≡ me) }
    {
        Holdings::empty(alloc, sites, me, None)
    }

    /// Nothing is attached, purged or counted, and every page is untouched. `limit`: the most copies that the site may have, if there is a
    /// limit.
    pub fn limited(alloc: A, sites: Sites, me: SiteId, limit: Option<u32>) -> Holdings<A>
        ensures held { (site : Site) → with_holdings sites me result site
            ≡ record site { entries = untouched sites me; attachments = λ _. None; purged = λ _. false; frames = option_map framed limit } }
        ensures seat { (result.sites ≡ sites) × (result.me ≡ me) }
    {
        Holdings::empty(alloc, sites, me, limit)
    }

    /// Segment 0 with this number of pages is attached as attachment 0, to read and write. The entries of the pages that the site manages
    /// are stored. `limit`: the most copies that the site may have, if there is a limit.
    pub fn preset(
        alloc: A,
        sites: Sites,
        me: SiteId,
        pages: u32,
        limit: Option<u32>,
    ) -> Result<Holdings<A>, AllocError>
        requires from { 1 ≤ pages }
        requires to { pages ≤ PAGES }
        ensures held { IfOk result (λ held. (site : Site) → with_holdings sites me held site
            ≡ record site {
              entries = untouched sites me;
              attachments = at (λ _. None) 0 (Some (preset_attachment pages));
              purged = λ _. false;
              frames = option_map framed limit;
            }) }
        ensures seat { IfOk result (λ held. (held.sites ≡ sites) × (held.me ≡ me)) }
    {
        let mut held = Holdings::empty(alloc, sites, me, limit);
        let bytes = PAGE_BYTES as u32 * pages;
        held.attach(SegId(0), bytes, false)?;
        Ok(held)
    }

    /// Nothing is held, and `limit` says how many copies there may be, if that is limited.
    fn empty(alloc: A, sites: Sites, me: SiteId, limit: Option<u32>) -> Holdings<A>
        ensures held { (site : Site) → with_holdings sites me result site
            ≡ record site { entries = untouched sites me; attachments = λ _. None; purged = λ _. false; frames = option_map framed limit } }
        ensures seat { (result.sites ≡ sites) × (result.me ≡ me) }
        ensures purged { purged_of result.purged ≡ (λ _. false) }
        ensures attachments { attachments_of result.attachments ≡ (λ _. None) }
    {
        Holdings {
            sites,
            me,
            entries: Entries::new(alloc),
            attachments: Attachments::new(),
            first_places: FirstPlaces::unknown(sites),
            purged: Purged::new(alloc),
            frames: frames_for(alloc, limit),
            alloc,
        }
    }
}

fn frames_for<A: Allocator + Copy>(alloc: A, limit: Option<u32>) -> Option<Frames<A>>
    ensures { held_frames result ≡ option_map framed limit }
{
    match limit {
        None => None,
        Some(limit) => Some(Frames::new(alloc, limit)),
    }
}
