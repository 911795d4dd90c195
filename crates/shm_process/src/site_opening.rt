//! How sites were begun, and where two don't agree.
ghost use Rattle.std.specs.Prelude.{◌≡◌};
ghost use Rattle.shm_process.specs.Hello.{compared, hello_to};

use crate::hello_line::Hello;
use std::fmt;

/// How a site was begun.
#[derive(Clone, Copy, Debug, PartialEq, Eq)]
pub struct Opening {
    /// The site.
    pub site: u32,
    /// How many sites there are.
    pub sites: u32,
    /// How many pages segment 0 began with.
    pub pages: u32,
}

/// Two sites of one stream that were begun with different numbers: they are of different clusters.
#[derive(Clone, Copy, Debug, PartialEq, Eq)]
pub struct Disagreement {
    /// How the site was begun that found it.
    pub own: Opening,
    /// How the other one was.
    pub other: Opening,
}

impl Opening {
    /// What this site says to that one.
    pub(crate) fn hello_to(&self, to: u32) -> Hello
        ensures { result ≡ hello_to self.now to }
    {
        Hello {
            from: self.site,
            to,
            sites: self.sites,
            pages: self.pages,
        }
    }

    /// Compares this site's opening with what another says to it. `None` where they agree, or where it isn't for this site.
    pub(crate) fn compare(&self, hello: &Hello) -> Option<Disagreement>
        ensures { result ≡ compared self.now hello.now }
    {
        let agrees = hello.sites == self.sites && hello.pages == self.pages;
        if hello.to != self.site || (agrees && hello.from < self.sites) {
            return None;
        }
        Some(Disagreement {
            own: *self,
            other: Opening {
                site: hello.from,
                sites: hello.sites,
                pages: hello.pages,
            },
        })
    }
}

impl fmt::Display for Disagreement {
    ghost use Rattle.std.specs.Prelude.{Some};
    ghost use Rattle.shm_process.specs.Hello.{disagreement_text};

    ghost output = { λ disagreement. Some (disagreement_text disagreement) };

    fn fmt<W: fmt::Write>(&self, f: &mut fmt::Formatter<W>) -> fmt::Result {
        let Opening { site, sites, pages } = self.other;
        let own_sites = self.own.sites;
        let own_pages = self.own.pages;
        write!(
            f,
            "site {site} was begun with --sites {sites} --preset {pages}, this one with --sites {own_sites} --preset {own_pages}"
        )
    }
}
