ghost use Rattle.std.specs.Prelude.{◌≡◌};
ghost use Rattle.shm_site.specs.Site.{site_of};
ghost use Rattle.shm_logs.specs.Boxes.Box.{last_stamp_or};
ghost use Rattle.shm_logs.specs.Boxes.SiteLog.{left_by_log, steps_of};

use crate::site_boxes::site_log::SiteLog;
use shm_place::{PAGES, SiteId, Sites};
use shm_site::Site;
use std::alloc::{AllocError, Allocator, Global};

/// A site that logs every step that it makes. By its type the site's state is that after its log, and the clock is the stamp of the last
/// step, or 0.
#[derive(Drop)]
pub struct SiteBox<A: Allocator + Copy = Global> {
    pub(crate) site: Site<A>,
    pub(crate) log: SiteLog<A>,
    pub(crate) clock: u64,
    ghost all_sites: { site.sites ≡ log.sites },
    ghost own_log: { site.me ≡ log.me },
    ghost stands: { site_of site ≡ left_by_log log },
    ghost stamped: { clock ≡ last_stamp_or 0 (steps_of log) },
}

impl<A: Allocator + Copy> SiteBox<A> {
    ghost use Rattle.std.specs.Prelude.{◌≤◌, ◌<◌, IfOk};
    ghost use Rattle.shm_logs.specs.Boxes.Box.{new_box};
    ghost use Rattle.shm_logs.specs.Boxes.SiteBox.{box_of};

    /// One of these sites in its box, where segment 0 has this number of pages and is attached, to read and write, as attachment 0. The
    /// segment's home is site 0. The log is empty and the clock 0.
    pub fn new(alloc: A, sites: Sites, me: SiteId, pages: u32) -> Result<SiteBox<A>, AllocError>
        requires below { me < sites }
        requires from { 1 ≤ pages }
        requires to { pages ≤ PAGES }
        ensures { IfOk result (λ new. box_of new ≡ new_box sites me pages) }
    {
        let site = Site::preset(alloc, sites, me, pages)?;
        Ok(SiteBox {
            site,
            log: SiteLog::new(alloc, sites, me, pages),
            clock: 0,
        })
    }

    /// The site, in the state after its log.
    pub fn site(&self) -> &Site<A>
        ensures site { site_of result.now ≡ (box_of self.now).site }
        ensures stands { site_of result.now ≡ left_by_log self.now.log }
    {
        &self.site
    }

    /// The log of all its steps.
    pub fn log(&self) -> &SiteLog<A>
        ensures { result.now ≡ self.now.log }
    {
        &self.log
    }

    /// The stamp of the last step, or 0.
    pub fn clock(&self) -> u64
        ensures clock { result ≡ (box_of self.now).clock }
        ensures last { result ≡ last_stamp_or 0 (box_of self.now).log }
    {
        self.clock
    }

    /// The log alone, when the site has done its work.
    pub fn into_log(self) -> SiteLog<A>
        ensures { result ≡ self.log }
    {
        self.log
    }
}
