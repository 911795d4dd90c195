ghost use Rattle.std.specs.Prelude.{◌≡◌, ◌<◌, nat_lt};
ghost use Rattle.shm_number.specs.Served.{served_of, taken};

use crate::counter::Number;
use shm_place::SiteId;
use std::marker::Model;

/// The greatest request number served of each site; 0 where none was. An older request that comes late, or again, is known by it.
#[derive(Drop)]
pub struct Served {
    greatest: [Number; 16],
}

impl Model for Served {
    ghost use Rattle.std.specs.Prelude.{◌≡◌, ℕ, List, length};

    ghost Value = { List ℕ };

    ghost view = { λ served. served.greatest };

    ghost invariant = { λ served. length served.greatest ≡ 16 };

    ghost inverse = { λ numbers. record { greatest = numbers } };
}

impl Served {
    /// No request was served of any site.
    pub fn new() -> Served
        ensures { served_of result ≡ (λ _. 0) }
    {
        Served { greatest: [0; 16] }
    }

    /// The record that has these numbers, in the order of the sites.
    pub fn restored(greatest: [Number; 16]) -> Served
        ensures { result ≡ greatest }
    {
        Served { greatest }
    }

    /// The greatest number that was served of each site, in the order of the sites.
    pub fn numbers(&self) -> [Number; 16]
        ensures { result ≡ self.now }
    {
        self.greatest
    }

    /// The greatest number that was served of the site; 0 where none was.
    pub fn greatest(&self, site: SiteId) -> Number
        requires { site < 16 }
        ensures { result ≡ served_of self.now site }
    {
        self.greatest[site.0 as usize]
    }

    /// Checks that the number is above all that were served of the site.
    pub fn fresh(&self, site: SiteId, number: Number) -> bool
        requires { site < 16 }
        ensures { result ≡ nat_lt (served_of self.now site) number }
    {
        self.greatest[site.0 as usize] < number
    }

    /// Takes the site's number as served. One that isn't fresh changes nothing.
    pub fn take(&mut self, site: SiteId, number: Number)
        requires { site < 16 }
        ensures { served_of self.new ≡ taken (served_of self.old) site number }
    {
        let index = site.0 as usize;
        self.greatest[index] = self.greatest[index].max(number);
    }

    /// The same numbers.
    pub fn copy(&self) -> Served
        ensures { result ≡ self.now }
    {
        Served {
            greatest: self.greatest,
        }
    }
}
