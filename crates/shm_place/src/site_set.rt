ghost use Rattle.std.specs.Prelude.{◌≡◌, ℕ, ◌==◌, ◌&&◌, ◌<◌, if◌then◌else◌, not, false, true, nat_lt, length};
ghost use Rattle.shm_place.specs.SiteSet.{has, has_none};

use crate::identifiers_and_homes::SiteId;
use crate::site_count::Sites;
use std::marker::Model;

/// A set of sites: for each of the 16 that there can be, whether it is in the set.
#[derive(Clone, Copy, Debug, PartialEq, Eq)]
pub struct SiteSet {
    members: [bool; 16],
}

impl Model for SiteSet {
    ghost use Rattle.std.specs.Prelude.{◌≡◌, Bool, List, length};

    ghost Value = { List Bool };

    ghost view = { λ set. set.members };

    ghost invariant = { λ set. length set.members ≡ 16 };

    ghost inverse = { λ members. record { members = members } };
}

fn has_none(members: &[bool]) -> bool
    ensures { result ≡ has_none members.now }
{
    members.iter().all(|member| !*member)
}

impl SiteSet {
    /// The empty set.
    pub fn empty() -> SiteSet
        ensures { has result ≡ (λ _. false) }
    {
        SiteSet {
            members: [false; 16],
        }
    }

    /// The set of all sites.
    pub fn all(sites: Sites) -> SiteSet
        ensures sites { (site : ℕ) → has result site ≡ nat_lt site sites }
        ensures some { has_none result ≡ false }
    {
        let mut members = [false; 16];
        let count = sites.count() as usize;
        for index in 0..count {
            members[index] = true;
        }
        SiteSet { members }
    }

    /// The set of these sites: of each of the 16 that there can be, whether it is in it.
    pub fn restored(members: [bool; 16]) -> SiteSet
        ensures { result ≡ members }
    {
        SiteSet { members }
    }

    /// Of each of the 16 sites that there can be, whether it is in the set.
    pub fn members(&self) -> [bool; 16]
        ensures { result ≡ self.now }
    {
        self.members
    }

    /// Checks that the site is in the set.
    pub fn contains(&self, site: SiteId) -> bool
        ensures { result ≡ has self.now site }
    {
        let index = site.0 as usize;
        index < self.members.len() && self.members[index]
    }

    /// Checks that no site is in the set.
    pub fn is_empty(&self) -> bool
        ensures { result ≡ has_none self.now }
    {
        has_none(&self.members)
    }

    /// Adds the site.
    pub fn insert(&mut self, site: SiteId)
        requires { site < 16 }
        ensures { has self.new ≡ (λ other. if site == other then true else has self.old other) }
    {
        self.members[site.0 as usize] = true;
    }

    /// The set without the site.
    pub fn without(self, site: SiteId) -> SiteSet
        ensures { (other : ℕ) → has result other ≡ (has self other && not (other == site)) }
    {
        let mut members = self.members;
        let index = site.0 as usize;
        if index < members.len() {
            members[index] = false;
        }
        SiteSet { members }
    }
}
