//! The sites that may have copies of a page.
ghost use Rattle.std.specs.Prelude.{◌≡◌, ◌++◌, ◌∷◌, [], ◌||◌, if◌then◌else◌, IfOk, OnOk, string_bytes};
ghost use Rattle.std.specs.Fmt.{decimal};
ghost use Rattle.shm_place.specs.SiteSet.{has};
ghost use Rattle.shm_debug.specs.Page.{copies_text};

use shm_place::{MAX_SITES, SiteId, SiteSet};
use std::alloc::{AllocError, Allocator};

/// Tells the sites of the set, rising, with commas between them; or a dash.
pub fn tell_copies<A: Allocator>(out: &mut String<A>, copies: SiteSet) -> Result<(), AllocError>
    ensures { OnOk result (string_bytes out.new ≡ string_bytes out.old ++ copies_text (has copies)) }
{
    let mut some = false;
    'sites: for site in 0..MAX_SITES {
        let is_copy = copies.contains(SiteId(site));
        tell_copy(out, site, is_copy, some)?;
        some = some | is_copy;
    }
    if some {
        return Ok(());
    }
    out.push_str("-")
}

/// Prints a site, if it may have a copy: behind a comma, if others were printed before.
fn tell_copy<A: Allocator>(
    out: &mut String<A>,
    site: u32,
    is_copy: bool,
    some: bool,
) -> Result<(), AllocError>
    ensures { OnOk result (string_bytes out.new ≡ string_bytes out.old ++ (if is_copy then (if some then 44 ∷ decimal site else decimal site) else [])) }
{
    if !is_copy {
        return Ok(());
    }
    if some {
        return write!(out, ",{site}");
    }
    write!(out, "{site}")
}
