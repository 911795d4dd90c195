//! The first line of a journal.
ghost use Rattle.std.specs.Prelude.{◌≡◌};
ghost use Rattle.shm_journal.specs.DeskFrom.{opening_of};
ghost use Rattle.shm_journal.specs.HeaderOf.{header_of};

use shm_process::Opening;
use shm_seal::ClusterName;
use std::fmt;

/// Whose journal it is: `journal SITES ME PAGES`, and ` @NAME` where the cluster has a name.
#[derive(Clone, Copy, Debug, PartialEq, Eq)]
pub struct Header {
    /// How many sites there are.
    pub sites: u32,
    /// The site whose steps are recorded.
    pub me: u32,
    /// How many pages segment 0 began with.
    pub pages: u32,
    /// The cluster's name, if it has one.
    pub cluster: Option<ClusterName>,
}

impl Header {
    /// How the site was begun.
    pub fn opening(&self) -> Opening
        ensures { result ≡ opening_of (header_of self.now) }
    {
        Opening {
            site: self.me,
            sites: self.sites,
            pages: self.pages,
        }
    }
}

impl fmt::Display for Header {
    ghost use Rattle.std.specs.Prelude.{Some};
    ghost use Rattle.shm_journal.specs.HeaderOf.{header_of};
    ghost use Rattle.shm_journal.specs.Lines.{header_line};

    ghost output = { λ header. Some (header_line (header_of header)) };

    /// The line, without a line feed.
    fn fmt<W: fmt::Write>(&self, f: &mut fmt::Formatter<W>) -> fmt::Result {
        let sites = self.sites;
        let me = self.me;
        let pages = self.pages;
        match self.cluster {
            Some(name) => write!(f, "journal {sites} {me} {pages} @{name}"),
            None => write!(f, "journal {sites} {me} {pages}"),
        }
    }
}
