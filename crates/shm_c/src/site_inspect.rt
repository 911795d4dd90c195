//! What C sees of a site.
ghost use Rattle.std.specs.Prelude.{◌≡◌, None, IfSome};
ghost use Rattle.shm_c.specs.Seat.{Seat, seat_access, seat_in, seat_shown};
ghost use Rattle.shm_c.specs.Sent.{access_number, shown_numbers};

use crate::numbers::ShownNumbers;
use crate::site_handle::SiteHandle;
use crate::spell_envelope::{access_number, shown_numbers};
use shm_place::{PageId, SegId};
use std::alloc::Global;

/// The access that the site has to the page: 0 none, 1 to read, 2 to write; 3 where there is no site or no such page.
#[unsafe(no_mangle)]
pub extern "C" fn leddwyfan_site_access(
    alloc: Global,
    site: &mut SiteHandle,
    seg: u32,
    index: u32,
) -> u32
    ensures kept { site.new.site ≡ site.old.site }
    ensures access { IfSome (seat_in site.old.site) (λ seat. result ≡ access_number (seat_access seat (record { seg = seg; index = index }))) }
    ensures empty { site.old.site ≡ None → result ≡ 3 }
{
    let Some(held) = site.take(alloc) else {
        return 3;
    };
    let access = held.site.access(PageId {
        seg: SegId(seg),
        index,
    });
    site.put(held);
    access_number(access)
}

/// The page as the site holds it.
#[unsafe(no_mangle)]
pub extern "C" fn leddwyfan_site_shown(
    alloc: Global,
    site: &mut SiteHandle,
    seg: u32,
    index: u32,
) -> ShownNumbers
    ensures kept { site.new.site ≡ site.old.site }
    ensures shown { IfSome (seat_in site.old.site) (λ seat. result ≡ shown_numbers (seat_shown seat (record { seg = seg; index = index }))) }
    ensures empty { site.old.site ≡ None → result ≡ shown_numbers None }
{
    let Some(held) = site.take(alloc) else {
        return shown_numbers(None);
    };
    let shown = held.site.shown(PageId {
        seg: SegId(seg),
        index,
    });
    site.put(held);
    shown_numbers(shown)
}
