//! What stands behind a site's handle: the site, and what its last step sent.
ghost use Rattle.std.specs.Prelude.{◌≡◌, ◌<◌, map, string_bytes, IfOk, IfSome, Some};
ghost use Rattle.shm_model.specs.Opening.{opening_of};
ghost use Rattle.shm_model.specs.World.{IsOpening, opened_site};
ghost use Rattle.shm_parts.specs.Message.{envelope_of};
ghost use Rattle.shm_site.specs.Site.{site_of};
ghost use Rattle.shm_site.specs.Step.{input_of, is_foreign};
ghost use Rattle.shm_c.specs.Seat.{begun_seat, line_at, seat_of};
ghost use Rattle.shm_c.specs.SiteSteps.{Delivered, Stepped};

use crate::envelope_line::{read_envelope, spell_envelope};
use crate::site_outcome::SiteOutcome;
use shm_model::Opening;
use shm_parts::Envelope;
use shm_place::SiteId;
use shm_site::{Input, Site};
use std::alloc::{AllocError, Global};

/// A site, and the envelopes that its last step sent.
#[derive(Drop)]
pub struct HeldSite {
    pub(crate) site: Site,
    pub(crate) sent: Vec<Envelope>,
}

impl HeldSite {
    /// The site of this number of a cluster that begins so. It has sent nothing.
    pub(crate) fn begin(
        alloc: Global,
        opening: &Opening,
        me: SiteId,
    ) -> Result<HeldSite, AllocError>
        requires below { me < opening.now.sites }
        requires opening { IsOpening (opening_of opening.now) }
        ensures { IfOk result (λ held. seat_of held ≡ begun_seat (opening_of opening.now) me) }
    {
        let site = first_site(alloc, opening, me)?;
        Ok(HeldSite {
            site,
            sent: Vec::new(alloc),
        })
    }

    /// One step. What it sends takes the place of what the step before sent. A step that isn't made changes nothing.
    #[inline(always)]
    pub(crate) fn step(&mut self, alloc: Global, input: Input) -> SiteOutcome
        ensures { Stepped (input_of input) (seat_of self.old) (seat_of self.new) result }
    {
        if self.refuses(&input) {
            return SiteOutcome::Foreign;
        }
        let mut sent = Vec::new(alloc);
        match self.site.step_proper(input, &mut sent) {
            Ok(answer) => {
                self.sent = sent;
                SiteOutcome::Made(answer)
            }
            Err(_) => SiteOutcome::NoMemory,
        }
    }

    /// Checks that the input hands over an envelope that can't be for this site.
    #[inline(always)]
    fn refuses(&self, input: &Input) -> bool
        ensures { result ≡ is_foreign self.now.site.sites self.now.site.me (input_of input.now) }
    {
        match input {
            Input::Deliver(envelope) => self.site.foreign(envelope),
            _ => false,
        }
    }

    /// Hands over the envelope that the line spells.
    pub(crate) fn deliver(&mut self, alloc: Global, line: &[u8]) -> SiteOutcome
        ensures { Delivered line.now (seat_of self.old) (seat_of self.new) result }
    {
        let Ok(read) = read_envelope(alloc, line) else {
            return SiteOutcome::NoMemory;
        };
        let Some(envelope) = read else {
            return SiteOutcome::NoLine;
        };
        self.step(alloc, Input::Deliver(envelope))
    }

    /// An equal site, which goes on alone.
    pub(crate) fn copy(&self, alloc: Global) -> Result<HeldSite, AllocError>
        ensures { IfOk result (λ copy. seat_of copy ≡ seat_of self.now) }
    {
        let sent = copies(alloc, self.sent.as_slice())?;
        let site = self.site.copy()?;
        Ok(HeldSite { site, sent })
    }

    /// The line of an envelope that the last step sent. None: there is none of this place, or memory was refused.
    pub(crate) fn line(&self, alloc: Global, place: usize) -> Option<String>
        ensures { IfSome result (λ text. line_at place (seat_of self.now) ≡ Some (string_bytes text)) }
    {
        let envelope = self.sent.get(place)?;
        spell_envelope(alloc, place, envelope)
    }
}

/// The site of this number, as it begins.
fn first_site(alloc: Global, opening: &Opening, me: SiteId) -> Result<Site, AllocError>
    requires below { me < opening.now.sites }
    requires opening { IsOpening (opening_of opening.now) }
    ensures site { IfOk result (λ site. site_of site ≡ opened_site (opening_of opening.now) me) }
    ensures seat { IfOk result (λ site. (site.sites ≡ opening.now.sites) × (site.me ≡ me)) }
{
    match (opening.preset, opening.frames) {
        (None, _) => Ok(Site::new(alloc, opening.sites, me)),
        (Some(pages), None) => Site::preset(alloc, opening.sites, me, pages),
        (Some(pages), Some(frames)) => Site::framed(alloc, opening.sites, me, pages, frames),
    }
}

/// Equal envelopes, in the same order.
fn copies(alloc: Global, envelopes: &[Envelope]) -> Result<Vec<Envelope>, AllocError>
    ensures { IfOk result (λ copies. map envelope_of copies.items ≡ map envelope_of envelopes.now) }
{
    let mut copies = Vec::new(alloc);
    'copied: for envelope in envelopes {
        copies.push(envelope.copy()?)?;
    }
    Ok(copies)
}
