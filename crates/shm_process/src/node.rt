ghost use Rattle.std.specs.Prelude.{◌≡◌, ◌≤◌};

use crate::waiting_ask::WaitingAsk;
use shm_place::{PAGES, SiteId, Sites};
use shm_site::Site;
use shm_wire::{Mapping, Tag};
use std::alloc::{AllocError, Allocator, Global};

/// A site as a process: it takes line after line, and holds the site, the asks that wait, at most 64, and the pages that its machine maps.
#[derive(Drop)]
pub struct Node<A: Allocator + Copy = Global> {
    pub(crate) site: Site<A>,
    pub(crate) sites: Sites,
    pub(crate) me: SiteId,
    pub(crate) clock: u64,
    pub(crate) steps: u64,
    pub(crate) taken: u64,
    pub(crate) passed: u64,
    pub(crate) caller: Option<Tag>,
    pub(crate) waiting: Vec<WaitingAsk<A>, A>,
    pub(crate) mapped: Vec<Mapping, A>,
    pub(crate) alloc: A,
    ghost all_sites: { site.sites ≡ sites },
    ghost own_number: { site.me ≡ me },
    ghost each_step_counts: { steps ≤ clock },
}

impl<A: Allocator + Copy> Node<A> {
    ghost use Rattle.std.specs.Prelude.{◌<◌, length, IfOk};
    ghost use Rattle.shm_process.specs.Node.{new_node};
    ghost use Rattle.shm_process.specs.NodeOf.{node_of};
    ghost use Rattle.shm_site.specs.Site.{site_of};

    /// One of these sites, where nothing has happened, segment 0 has this number of pages and is attached, to read and write, as attachment
    /// 0. The segment's home is site 0.
    pub fn new(alloc: A, sites: Sites, me: SiteId, pages: u32) -> Result<Node<A>, AllocError>
        requires below { me < sites }
        requires from { 1 ≤ pages }
        requires to { pages ≤ PAGES }
        ensures { IfOk result (λ node. node_of node ≡ new_node sites me pages) }
    {
        let site = Site::preset(alloc, sites, me, pages)?;
        Ok(Node {
            site,
            sites,
            me,
            clock: 0,
            steps: 0,
            taken: 0,
            passed: 0,
            caller: None,
            waiting: Vec::new(alloc),
            mapped: Vec::new(alloc),
            alloc,
        })
    }

    /// The site as it stands.
    pub fn site(&self) -> &Site<A>
        ensures { site_of result.now ≡ (node_of self.now).site }
    {
        &self.site
    }

    /// How many sites there are.
    pub fn sites(&self) -> Sites
        ensures { result ≡ (node_of self.now).sites }
    {
        self.sites
    }

    /// Which of them this is.
    pub fn me(&self) -> SiteId
        ensures { result ≡ (node_of self.now).me }
    {
        self.me
    }

    /// The clock of the last step, or 0.
    pub fn clock(&self) -> u64
        ensures { result ≡ (node_of self.now).clock }
    {
        self.clock
    }

    /// How many steps were made.
    pub fn steps(&self) -> u64
        ensures { result ≡ (node_of self.now).steps }
    {
        self.steps
    }

    /// How many lines made a step when they were taken, or brought a block that found room.
    pub fn lines_taken(&self) -> u64
        ensures { result ≡ (node_of self.now).taken }
    {
        self.taken
    }

    /// How many lines were passed over: the others; a `show`, and a block that found no room, too, though they are answered.
    pub fn lines_passed(&self) -> u64
        ensures { result ≡ (node_of self.now).passed }
    {
        self.passed
    }

    /// How many asks wait.
    #[tactic(auto, using(crate::proofs::Asks::length_map))]
    pub fn asks_waiting(&self) -> usize
        ensures { result ≡ length (node_of self.now).waiting }
    {
        self.waiting.len()
    }
}
