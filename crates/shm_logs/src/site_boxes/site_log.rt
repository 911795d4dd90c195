ghost use Rattle.std.specs.Prelude.{◌≤◌, ◌<◌, map};
ghost use Rattle.shm_place.specs.Limits as limit;
ghost use Rattle.shm_model.specs.Log.{Fits};
ghost use Rattle.shm_model.specs.World.{opened_site, Preset};
ghost use Rattle.shm_logs.specs.Boxes.Logged.{logged_of};

use crate::site_boxes::logged_step::Step;
use shm_place::{PAGES, SiteId, Sites};
use std::alloc::{AllocError, Allocator, Global};

/// The steps of a site, the first one first. By its type the log fits: each step answered and sent what the site, which began with segment
/// 0 attached, answers and sends to these inputs.
#[derive(Drop)]
pub struct SiteLog<A: Allocator + Copy = Global> {
    sites: Sites,
    me: SiteId,
    pages: u32,
    steps: Vec<Step<A>, A>,
    ghost below: { me < sites },
    ghost from: { 1 ≤ pages },
    ghost to: { pages ≤ limit.pages },
    ghost fits: { Fits sites me (opened_site (Preset sites pages) me) (map logged_of steps.items) },
}

impl<A: Allocator + Copy> SiteLog<A> {
    ghost use Rattle.std.specs.Prelude.{◌≡◌, ◌==◌, ◌++◌, [], ◌∷◌, length, IsOk, IsTrue, OnOk, vec_capacity};
    ghost use Rattle.shm_model.specs.Log.{is_logged, outcome_of};
    ghost use Rattle.shm_logs.specs.Boxes.SiteLog.{opening_of, steps_of, tells_next, HasRoom, SameOpening};

    /// No steps yet, of one of these sites with this number of pages in segment 0.
    pub(crate) fn new(alloc: A, sites: Sites, me: SiteId, pages: u32) -> SiteLog<A>
        requires below { me < sites }
        requires from { 1 ≤ pages }
        requires to { pages ≤ PAGES }
        ensures steps { steps_of result ≡ [] }
        ensures opening { (result.sites ≡ sites) × (result.me ≡ me) × (result.pages ≡ pages) }
    {
        SiteLog {
            sites,
            me,
            pages,
            steps: Vec::new(alloc),
        }
    }

    /// Makes room for one more step. Where there is room already this takes no memory.
    pub(crate) fn reserve(&mut self) -> Result<(), AllocError>
        ensures steps { steps_of self.new ≡ steps_of self.old }
        ensures opening { SameOpening self.old self.new }
        ensures room { OnOk result (length self.new.steps.items < vec_capacity self.new.steps) }
        ensures there { HasRoom self.old → IsOk result }
    {
        self.steps.reserve(1)
    }

    /// Adds the site's next step, for which room was made.
    pub(crate) fn push(&mut self, step: Step<A>)
        requires room { length self.old.steps.items < vec_capacity self.old.steps }
        requires tells { outcome_of (logged_of step) ≡ tells_next self.old (logged_of step).input }
        requires logged { IsTrue (is_logged self.old.sites self.old.me (logged_of step).input) }
        ensures steps { steps_of self.new ≡ steps_of self.old ++ logged_of step ∷ [] }
        ensures opening { SameOpening self.old self.new }
    {
        self.steps.push_reserved(step);
    }

    /// How many sites there are.
    pub fn sites(&self) -> Sites
        ensures { result ≡ self.now.sites }
    {
        self.sites
    }

    /// The site whose log it is.
    pub fn site(&self) -> SiteId
        ensures { result ≡ self.now.me }
    {
        self.me
    }

    /// How many pages segment 0 began with.
    pub fn pages(&self) -> u32
        ensures { result ≡ self.now.pages }
    {
        self.pages
    }

    /// How many steps there are.
    pub fn len(&self) -> usize
        ensures { result ≡ length (steps_of self.now) }
    {
        self.steps.len()
    }

    /// Checks that there are none.
    pub fn is_empty(&self) -> bool
        ensures { result ≡ (length (steps_of self.now) == 0) }
    {
        self.steps.is_empty()
    }

    /// The steps, the first first. They fit.
    pub fn steps(&self) -> &[Step<A>]
        ensures steps { map logged_of result.now ≡ steps_of self.now }
        ensures fits { Fits self.now.sites self.now.me (opened_site (opening_of self.now) self.now.me) (map logged_of result.now) }
    {
        self.steps.as_slice()
    }
}
