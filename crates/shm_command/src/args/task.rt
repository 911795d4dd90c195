use crate::args::seal_words::SealWords;
use crate::args::shortening_words::Shortening;
use crate::args::simulation_words::Simulation;
use shm_place::{PageId, SiteId, Sites};

/// The task that the words behind the program's name ask for.
#[derive(Debug, PartialEq, Eq, Drop)]
pub enum Task<'a> {
    /// Replay the script that lies in a file, or else the one on standard input.
    Replay {
        file: Option<&'a str>,
    },
    /// Run the workload on standard input on this many sites in threads, with losses and repeats drawn from the seed. Add a summary, or
    /// not. Save the logs in a folder, if one is named.
    Run {
        sites: Sites,
        seed: u32,
        summary: bool,
        log: Option<&'a str>,
    },
    /// Run the workload on standard input over and over, without threads, and tell the outcomes.
    Simulate(Simulation<'a>),
    /// Answer what is typed, line by line.
    Prompt,
    /// Draw the run that a script leaves, which lies in a file, or else stands on standard input: what is about this page, or each page that
    /// it touches. As a picture, or with all steps as a page for a browser. With the captions of the notes in a file, if one is named.
    Draw {
        page: Option<PageId>,
        steps: bool,
        notes: Option<&'a str>,
        file: Option<&'a str>,
    },
    /// Run this site of `sites`, where segment 0 has this number of pages, on the lines of standard input. Keep its journal in a file, if
    /// one is named, which it begins or goes on with. Seal its lines, if the words say so. Make the journal shorter, when the words say so.
    Site {
        sites: Sites,
        me: SiteId,
        pages: u32,
        journal: Option<&'a str>,
        begins: bool,
        seal: SealWords<'a>,
        shortening: Shortening,
    },
    /// Audit the journals of this many sites, which are in these files.
    Audit {
        sites: Sites,
        journals: Vec<&'a str>,
    },
    /// Tell what the journal in this file has.
    Journal {
        file: &'a str,
    },
    /// Make the journal in this file shorter.
    Shorten {
        file: &'a str,
    },
}
