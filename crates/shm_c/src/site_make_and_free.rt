//! How C makes, copies and frees a site.
ghost use Rattle.std.specs.Prelude.{◌≡◌, ◌<◌, ◌&&◌, ◌≤◌, false, true, None, Some, is_some, nat_lt, IfSome};
ghost use Rattle.shm_c.specs.Openings.{is_opening, numbered_opening};
ghost use Rattle.shm_c.specs.Seat.{begun_seat, seat_in, Seated};

use crate::held_site::HeldSite;
use crate::make_and_free::{BAD_NUMBERS, DONE, EMPTY, FULL, NO_MEMORY, numbered_opening};
use crate::site_handle::SiteHandle;
use shm_place::SiteId;
use std::alloc::Global;

/// Makes the site `me` of so many, at which nothing has happened, in an empty handle.
#[unsafe(no_mangle)]
pub extern "C" fn leddwyfan_site_make(
    alloc: Global,
    site: &mut SiteHandle,
    sites: u32,
    me: u32,
    pages: u32,
    frames: u32,
) -> u32
    ensures full { is_some site.old.site ≡ true → (site.new.site ≡ site.old.site) × (result ≡ 32) }
    ensures wrong { site.old.site ≡ None → (is_opening sites pages frames && nat_lt me sites) ≡ false → (site.new.site ≡ None) × (result ≡ 4) }
    ensures made { site.old.site ≡ None → (is_opening sites pages frames && nat_lt me sites) ≡ true
        → Seated (seat_in site.new.site) (begun_seat (numbered_opening sites pages frames) me) result }
{
    if let Some(held) = site.take(alloc) {
        site.put(held);
        return FULL;
    }
    let Some(opening) = numbered_opening(sites, pages, frames) else {
        return BAD_NUMBERS;
    };
    if opening.sites.count() <= me {
        return BAD_NUMBERS;
    }
    let Ok(made) = HeldSite::begin(alloc, &opening, SiteId(me)) else {
        return NO_MEMORY;
    };
    let Ok(made) = Box::new(alloc, made) else {
        return NO_MEMORY;
    };
    site.put(made);
    DONE
}

/// Makes an equal site in the empty handle `copy`, with what its last step sent; both go on alone.
#[unsafe(no_mangle)]
pub extern "C" fn leddwyfan_site_copy(
    alloc: Global,
    site: &mut SiteHandle,
    copy: &mut SiteHandle,
) -> u32
    ensures kept { site.new.site ≡ site.old.site }
    ensures full { is_some copy.old.site ≡ true → (copy.new.site ≡ copy.old.site) × (result ≡ 32) }
    ensures empty { copy.old.site ≡ None → site.old.site ≡ None → (copy.new.site ≡ None) × (result ≡ 33) }
    ensures made { copy.old.site ≡ None → IfSome (seat_in site.old.site) (λ seat. Seated (seat_in copy.new.site) seat result) }
{
    if let Some(held) = copy.take(alloc) {
        copy.put(held);
        return FULL;
    }
    let Some(held) = site.take(alloc) else {
        return EMPTY;
    };
    let made = held.copy(alloc);
    site.put(held);
    let Ok(made) = made else {
        return NO_MEMORY;
    };
    let Ok(made) = Box::new(alloc, made) else {
        return NO_MEMORY;
    };
    copy.put(made);
    DONE
}

/// Frees the site, if there is one, and leaves the handle empty.
#[unsafe(no_mangle)]
pub extern "C" fn leddwyfan_site_free(alloc: Global, site: &mut SiteHandle)
    ensures { site.new.site ≡ None }
{
    let _site = site.take(alloc);
}
