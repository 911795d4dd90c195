//! How each site of a world begins.
ghost use Rattle.std.specs.Prelude.{◌≡◌, ◌<◌, IfOk};
ghost use Rattle.shm_model.specs.Opening.{opening_of};
ghost use Rattle.shm_model.specs.World.{IsOpening, opened_site};
ghost use Rattle.shm_site.specs.Site.{site_of};

use shm_model::Opening;
use shm_place::SiteId;
use shm_site::Site;
use std::alloc::{AllocError, Allocator};

/// The site of this number, as it begins.
pub(crate) fn begin<A: Allocator + Copy>(
    alloc: A,
    opening: &Opening,
    me: SiteId,
) -> Result<Site<A>, AllocError>
    requires below { me < opening.now.sites }
    requires opening { IsOpening (opening_of opening.now) }
    ensures site { IfOk result (λ site. site_of site ≡ opened_site (opening_of opening.now) me) }
    ensures seat { IfOk result (λ site. (site.sites ≡ opening.now.sites) × (site.me ≡ me)) }
{
    match (opening.preset, opening.frames) {
        (None, _) => Ok(Site::new(alloc, opening.sites, me)),
        (Some(pages), None) => Site::preset(alloc, opening.sites, me, pages),
        (Some(pages), Some(frames)) => Site::framed(alloc, opening.sites, me, pages, frames),
    }
}
