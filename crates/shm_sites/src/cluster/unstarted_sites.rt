//! The sites of a cluster before their threads run.
ghost use Rattle.std.specs.Prelude.{◌≡◌, ◌≤◌, ◌<◌, IfOk, vec_len};
ghost use Rattle.shm_sites.specs.Cluster.Posts.{AtTheirNumbers};

use crate::cluster::shared_state::Post;
use crate::cluster::site_thread::Worker;
use shm_logs::SiteBox;
use shm_place::{PAGES, SiteId, Sites};
use std::alloc::{AllocError, Allocator, Global};
use std::sync::Mutex;

/// The shared part of each site and the part of its own thread, each at the site's number.
#[derive(Drop)]
pub(crate) struct Opened<A: Allocator + Copy = Global> {
    pub(crate) posts: Vec<Post<A>, A>,
    pub(crate) workers: Vec<Worker<A>, A>,
}

/// Opens these sites, where segment 0 has this number of pages.
pub(crate) fn open<A: Allocator + Copy>(
    alloc: A,
    sites: Sites,
    pages: u32,
) -> Result<Opened<A>, AllocError>
    requires from { 1 ≤ pages }
    requires to { pages ≤ PAGES }
    ensures sites { IfOk result (λ opened. vec_len opened.posts ≡ sites) }
    ensures numbered { IfOk result (λ opened. AtTheirNumbers opened.posts.items) }
{
    let mut posts = Vec::new(alloc);
    let mut workers = Vec::new(alloc);
    'sites: for number in 0..sites.count() {
        let (post, worker) = open_site(alloc, sites, SiteId(number), pages)?;
        posts.push(post)?;
        workers.push(worker)?;
    }
    Ok(Opened { posts, workers })
}

fn open_site<A: Allocator + Copy>(
    alloc: A,
    sites: Sites,
    site: SiteId,
    pages: u32,
) -> Result<(Post<A>, Worker<A>), AllocError>
    requires below { site < sites }
    requires from { 1 ≤ pages }
    requires to { pages ≤ PAGES }
    ensures { IfOk result (λ opened. opened.0.number ≡ site) }
{
    let (sender, mail) = crossbeam_channel::unbounded(alloc)?;
    let new = SiteBox::new(alloc, sites, site, pages)?;
    let post = Post {
        number: site,
        site: Mutex::new(new),
        mail: sender,
    };
    Ok((post, Worker { site, mail }))
}
