//! The places of things in a picture, in pixels.
ghost use Rattle.std.specs.Prelude.{◌≡◌, ◌+◌, IfOk};
ghost use Rattle.shm_draw.specs.Svg;

use crate::mark_kinds::End;
use shm_place::{SiteId, Sites};
use std::alloc::AllocError;

/// The middle of the site's lifeline.
pub(crate) fn x_of(site: SiteId) -> u64
    ensures { result ≡ Svg.x_of site }
{
    270 + 110 * site.0 as u64
}

/// The height of a row, from the top of its page's picture; the first row is the world before any event.
pub(crate) fn y_of(row: u64) -> u128
    ensures { result ≡ Svg.y_of row }
{
    78 + 22 * row as u128
}

/// How far the bow from the row `origin` to this one goes out from its lifeline.
pub(crate) fn reach_of(origin: u64, row: u64) -> u128
    ensures { result ≡ Svg.reach_of origin row }
{
    let rows = row.saturating_sub(origin) as u128;
    24 + 132 * rows / (rows + 11)
}

/// Where the arrow ends: at its receiver's lifeline, or halfway where the envelope is lost.
pub(crate) fn tip_of(from: SiteId, to: SiteId, end: End) -> u64
    ensures { result ≡ Svg.tip_of from to end }
{
    match end {
        End::Lost => 270 + 55 * (from.0 as u64 + to.0 as u64),
        _ => x_of(to),
    }
}

/// The picture's width: that of the legend, or of the lifelines and the room right of the last.
pub(crate) fn width_of(sites: Sites, room: u32) -> u64
    ensures { result ≡ Svg.width_of sites room }
{
    let needed = 160 + 110 * sites.count() as u64 + room as u64;
    if needed < 680 {
        return 680;
    }
    needed
}

/// The height of a page's picture: that of all rows of events and of envelopes on their way, of what stands above them, and of a margin.
pub(crate) fn depth_of(last: u64, further: u64) -> u128
    ensures { result ≡ Svg.depth_of last further }
{
    110 + 22 * (last as u128 + further as u128)
}

/// The row so far below the last. No memory holds a picture whose rows can't be counted.
pub(crate) fn row_below(last: u64, further: u64) -> Result<u64, AllocError>
    ensures { IfOk result (λ row. row ≡ last + further) }
{
    match last.checked_add(further) {
        Some(row) => Ok(row),
        None => Err(AllocError),
    }
}

/// Where the next picture begins, below one that goes so far down. No memory holds pictures that go down further than can be counted.
pub(crate) fn next_top(top: u128, depth: u128) -> Result<u128, AllocError>
    ensures { IfOk result (λ next. next ≡ top + depth) }
{
    match top.checked_add(depth) {
        Some(next) => Ok(next),
        None => Err(AllocError),
    }
}
