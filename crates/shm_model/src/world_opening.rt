//! How the sites of a world begin.
ghost use Rattle.std.specs.Prelude.{◌≡◌, None, Some};

use shm_place::Sites;

/// How the sites of a world begin: what the first line of a script says.
#[derive(Clone, Copy, Debug, PartialEq, Eq)]
pub struct Opening {
    /// The sites.
    pub sites: Sites,
    /// The number of pages of segment 0, which every site has attached; `None`: no segment.
    pub preset: Option<u32>,
    /// The most pages that each site holds as copies; `None`: any number.
    pub frames: Option<u32>,
}

impl Opening {
    /// These sites, and no segment.
    pub fn new(sites: Sites) -> Opening
        ensures { result ≡ record { sites = sites; preset = None; frames = None } }
    {
        Opening {
            sites,
            preset: None,
            frames: None,
        }
    }

    /// The same with this number of pages of segment 0, which every site has attached.
    pub fn preset(sites: Sites, pages: u32) -> Opening
        ensures { result ≡ record { sites = sites; preset = Some pages; frames = None } }
    {
        Opening {
            sites,
            preset: Some(pages),
            frames: None,
        }
    }

    /// The same with at most this many pages held as copies at each site.
    pub fn framed(sites: Sites, pages: u32, frames: u32) -> Opening
        ensures { result ≡ record { sites = sites; preset = Some pages; frames = Some frames } }
    {
        Opening {
            sites,
            preset: Some(pages),
            frames: Some(frames),
        }
    }
}
