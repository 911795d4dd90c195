//! The sites, each at its number.
ghost use Rattle.std.specs.Prelude.{◌≡◌, length, [], false, true, ◌<◌, Some, is_some, map, slice_get, slice_set, IfErr, IfOk, IfSome, OnErr};
ghost use Rattle.shm_world.specs.Seats.{Seated};
ghost use Rattle.std.specs.List.{range_with_len};
ghost use Rattle.std.specs.Option.{option_copied};
ghost use Rattle.shm_model.specs.Access as access;
ghost use Rattle.shm_model.specs.Site as model;
ghost use Rattle.shm_model.specs.Step.{deliver, foreign, step};
ghost use Rattle.shm_model.specs.World.{IsOpening, opened_site};
ghost use Rattle.shm_parts.specs.Message.{envelope_of};
ghost use Rattle.shm_site.specs.Step.{envelope_if, handed_envelope, input_of, is_fault, is_foreign, is_refused, may_grow};

use crate::site_start::begin;
use shm_model::{Answer, Opening};
use shm_parts::{Envelope, Outbox};
use shm_place::{SiteId, Sites};
use shm_site::{Input, Site};
use std::alloc::{AllocError, Allocator, Global};

/// The sites of a world, each at its number.
#[derive(Drop)]
pub struct Members<A: Allocator + Copy = Global> {
    pub(crate) count: Sites,
    pub(crate) sites: Vec<Site<A>, A>,
    ghost whole: { length sites.items ≡ count },
    ghost seats: { Seated count sites.items },
}

impl<A: Allocator + Copy> Members<A> {
    ghost use Rattle.shm_site.specs.Site.{site_of};
    ghost use Rattle.shm_world.specs.Members.{members_of, seen_by, Made};
    ghost use Rattle.shm_world.specs.Undo.{Fits, kept_site};
    ghost use Rattle.shm_model.specs.Opening.{opening_of};

    /// All sites as they begin.
    pub(crate) fn begin(alloc: A, opening: Opening) -> Result<Members<A>, AllocError>
        requires { IsOpening (opening_of opening) }
        ensures sites { IfOk result (λ members. members_of members ≡ map (opened_site (opening_of opening)) (range_with_len 0 opening.sites)) }
        ensures count { IfOk result (λ members. members.count ≡ opening.sites) }
    {
        let count = opening.sites;
        let mut sites = Vec::with_capacity(alloc, count.count() as usize)?;
        'sites: for site in 0..count.count() {
            let site = begin(alloc, &opening, SiteId(site))?;
            sites.push_reserved(site);
        }
        Ok(Members { count, sites })
    }

    /// The site of this number, if there is one.
    pub(crate) fn get(&self, site: SiteId) -> Option<&Site<A>>
        ensures site { seen_by (option_copied result) ≡ slice_get (members_of self.now) site }
        ensures seat { IfSome result (λ x. (x.now.sites ≡ self.now.count) × (x.now.me ≡ site)) }
    {
        self.sites.get(site.0 as usize)
    }

    /// A site's step of an input that it doesn't refuse as foreign. Where memory is refused, the sites are as before and an envelope that was
    /// handed in comes back.
    #[inline(always)]
    pub(crate) fn step<O: Outbox<Envelope<A>>>(
        &mut self,
        site: SiteId,
        input: Input<A>,
        outbox: &mut O,
    ) -> Result<Answer, Option<Envelope<A>>>
        requires below { site < self.old.count }
        requires own { is_foreign self.old.count site (input_of input) ≡ false }
        ensures step { IfOk result (λ answer. (x : model.Site) → slice_get (members_of self.old) site ≡ Some x
            → Made O.posted self.old self.new site outbox.old outbox.new answer (step self.old.count site x (input_of input))) }
        ensures memory { OnErr result ((x : model.Site) → slice_get (members_of self.old) site ≡ Some x
            → may_grow self.old.count site x (input_of input) ≡ true) }
        ensures back { IfErr result (λ back. envelope_if back ≡ handed_envelope (input_of input)) }
        ensures refused { OnErr result ((members_of self.new ≡ members_of self.old) × O.posted outbox.old outbox.new []) }
        ensures count { self.new.count ≡ self.old.count }
    {
        self.sites[site.0 as usize].step_proper(input, outbox)
    }

    /// A site's load. Where memory is refused the sites are as before.
    #[inline(always)]
    pub(crate) fn load<O: Outbox<Envelope<A>>>(
        &mut self,
        site: SiteId,
        at: u32,
        offset: u32,
        outbox: &mut O,
    ) -> Result<Answer, AllocError>
        requires { site < self.old.count }
        ensures step { IfOk result (λ answer. (x : model.Site) → slice_get (members_of self.old) site ≡ Some x
            → Made O.posted self.old self.new site outbox.old outbox.new answer (access.load self.old.count site at offset x)) }
        ensures refused { OnErr result ((members_of self.new ≡ members_of self.old) × O.posted outbox.old outbox.new []) }
        ensures memory { OnErr result ((x : model.Site) → slice_get (members_of self.old) site ≡ Some x
            → is_fault (access.load self.old.count site at offset x).answer ≡ true) }
        ensures count { self.new.count ≡ self.old.count }
    {
        self.sites[site.0 as usize].load(at, offset, outbox)
    }

    /// A site's store. Where memory is refused the sites are as before.
    #[inline(always)]
    pub(crate) fn store<O: Outbox<Envelope<A>>>(
        &mut self,
        site: SiteId,
        at: u32,
        offset: u32,
        byte: u8,
        outbox: &mut O,
    ) -> Result<Answer, AllocError>
        requires { site < self.old.count }
        ensures step { IfOk result (λ answer. (x : model.Site) → slice_get (members_of self.old) site ≡ Some x
            → Made O.posted self.old self.new site outbox.old outbox.new answer (access.store self.old.count site at offset byte x)) }
        ensures refused { OnErr result ((members_of self.new ≡ members_of self.old) × O.posted outbox.old outbox.new []) }
        ensures memory { OnErr result ((x : model.Site) → slice_get (members_of self.old) site ≡ Some x
            → is_fault (access.store self.old.count site at offset byte x).answer ≡ true) }
        ensures count { self.new.count ≡ self.old.count }
    {
        self.sites[site.0 as usize].store(at, offset, byte, outbox)
    }

    /// Hands an envelope to the site that it names. Where memory is refused the sites are as before, and it comes back.
    #[inline(always)]
    pub(crate) fn deliver<O: Outbox<Envelope<A>>>(
        &mut self,
        envelope: Envelope<A>,
        outbox: &mut O,
    ) -> Result<Answer, Envelope<A>>
        requires { envelope.to < self.old.count }
        ensures step { IfOk result (λ answer. (x : model.Site) → slice_get (members_of self.old) envelope.to ≡ Some x
            → Made O.posted self.old self.new envelope.to outbox.old outbox.new answer (deliver self.old.count envelope.to (envelope_of envelope) x)) }
        ensures memory { OnErr result ((x : model.Site) → slice_get (members_of self.old) envelope.to ≡ Some x
            → is_refused (deliver self.old.count envelope.to (envelope_of envelope) x).answer ≡ false) }
        ensures back { IfErr result (λ back. envelope_of back ≡ envelope_of envelope) }
        ensures refused { OnErr result ((members_of self.new ≡ members_of self.old) × O.posted outbox.old outbox.new []) }
        ensures count { self.new.count ≡ self.old.count }
    {
        let site = envelope.to;
        self.sites[site.0 as usize].deliver_addressed(envelope, outbox)
    }

    /// Checks that the site that the envelope names refuses it as foreign.
    pub(crate) fn is_foreign(&self, envelope: &Envelope<A>) -> bool
        requires { envelope.now.to < self.now.count }
        ensures { result ≡ foreign self.now.count envelope.now.to (envelope_of envelope.now) }
    {
        let site = envelope.to;
        self.sites[site.0 as usize].is_improper(envelope)
    }

    /// A copy of the site of this number, beside the number, if there is one.
    pub(crate) fn copy_of(&self, site: SiteId) -> Result<Option<(SiteId, Site<A>)>, AllocError>
        ensures site { IfOk result (λ copy. kept_site copy ≡ slice_get (members_of self.now) site) }
        ensures number { IfOk result (λ copy. IfSome copy (λ kept. kept.0 ≡ site)) }
        ensures fits { IfOk result (Fits self.now.count) }
        ensures memory { OnErr result (is_some (slice_get (members_of self.now) site) ≡ true) }
    {
        match self.get(site) {
            Some(found) => Ok(Some((site, found.copy()?))),
            None => Ok(None),
        }
    }

    /// Puts a site in its seat, that of the number beside it, in place of the one that sits there.
    pub(crate) fn put(&mut self, kept: (SiteId, Site<A>))
        requires below { kept.0 < self.old.count }
        requires sites { kept.1.sites ≡ self.old.count }
        requires own { kept.1.me ≡ kept.0 }
        ensures sites { members_of self.new ≡ slice_set (members_of self.old) kept.0 (site_of kept.1) }
        ensures count { self.new.count ≡ self.old.count }
    {
        let (at, site) = kept;
        self.sites[at.0 as usize] = site;
    }

    /// Equal sites.
    pub(crate) fn copy(&self, alloc: A) -> Result<Members<A>, AllocError>
        ensures sites { IfOk result (λ copy. members_of copy ≡ members_of self.now) }
        ensures count { IfOk result (λ copy. copy.count ≡ self.now.count) }
    {
        let mut sites = Vec::with_capacity(alloc, self.sites.len())?;
        'sites: for site in self.sites.iter() {
            let copy = site.copy()?;
            sites.push_reserved(copy);
        }
        Ok(Members {
            count: self.count,
            sites,
        })
    }
}
