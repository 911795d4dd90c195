//! The handle of a site that C holds.
ghost use Rattle.std.specs.Prelude.{◌≡◌, Option, None, Some, MatchOption};
ghost use Rattle.shm_site.specs.Step.{input_of};
ghost use Rattle.shm_c.specs.HeldSites.{site_code};
ghost use Rattle.shm_c.specs.Seat.{seat_in};
ghost use Rattle.shm_c.specs.SiteSteps.{Became, Delivered, Stepped};
ghost use Rattle.shm_c.specs.declared.held_site.HeldSite.{HeldSite};

use crate::held_site::HeldSite;
use crate::loose::Loose;
use crate::site_outcome::SiteOutcome;
use shm_site::Input;
use std::alloc::Global;
use std::marker::Model;
use std::mem::replace;
use std::ptr::null_mut;

/// A site that C holds: the pointer is null, or that of a box with the site. The ghost field has the site.
#[repr(C)]
#[derive(Drop)]
pub struct SiteHandle {
    at: *mut u8,
    ghost site: { Option HeldSite } by { site_code },
}

impl Model for SiteHandle {
    ghost use Rattle.shm_c.specs.HeldSites.{owned_site};

    ghost also_owns = { λ handle. owned_site handle.at handle.site };
}

impl SiteHandle {
    /// An empty handle.
    fn none() -> SiteHandle
        ensures { result.site ≡ None }
    {
        SiteHandle { at: null_mut() }
    }

    /// The handle of the site.
    fn of_loose(value: Loose<HeldSite, Global>) -> SiteHandle
        ensures { result.site ≡ Some value.value }
    {
        let Loose { at, alloc: _ } = value;
        SiteHandle {
            at: at.cast::<u8>(),
        }
    }

    /// The site, if there is one.
    fn into_loose(self, alloc: Global) -> Option<Loose<HeldSite, Global>>
        ensures { MatchOption result (self.site ≡ None) (λ loose. self.site ≡ Some loose.value) }
    {
        let SiteHandle { at } = self;
        if at.is_null() {
            None
        } else {
            Some(Loose {
                at: at.cast::<HeldSite>(),
                alloc,
            })
        }
    }

    /// Takes the site out, and leaves the handle empty.
    pub(crate) fn take(&mut self, alloc: Global) -> Option<Box<HeldSite>>
        ensures now { self.new.site ≡ None }
        ensures was { MatchOption result (self.old.site ≡ None) (λ site. self.old.site ≡ Some site.value) }
    {
        match replace(self, SiteHandle::none()).into_loose(alloc) {
            Some(loose) => Some(loose.into_box()),
            None => None,
        }
    }

    /// Puts a site in. The handle is empty.
    pub(crate) fn put(&mut self, site: Box<HeldSite>)
        requires { self.old.site ≡ None }
        ensures { self.new.site ≡ Some site.value }
    {
        *self = SiteHandle::of_loose(Loose::of(site));
    }
    /// One step.
    #[inline(always)]
    pub(crate) fn step(&mut self, alloc: Global, input: Input) -> SiteOutcome
        ensures { Became (Stepped (input_of input)) (seat_in self.old.site) (seat_in self.new.site) result }
    {
        let Some(mut held) = self.take(alloc) else {
            return SiteOutcome::NoSite;
        };
        let outcome = held.step(alloc, input);
        self.put(held);
        outcome
    }

    /// Hands over the envelope that the line spells.
    pub(crate) fn deliver(&mut self, alloc: Global, line: &[u8]) -> SiteOutcome
        ensures { Became (Delivered line.now) (seat_in self.old.site) (seat_in self.new.site) result }
    {
        let Some(mut held) = self.take(alloc) else {
            return SiteOutcome::NoSite;
        };
        let outcome = held.deliver(alloc, line);
        self.put(held);
        outcome
    }
}
