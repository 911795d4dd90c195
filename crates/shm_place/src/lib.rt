//! Where things live: sites, keys, segment identifiers and pages, with their limits, their homes and their managers.
#![tactic(auto)]

mod identifiers_and_homes;
mod limits;
mod page_arithmetic;
mod page_id;
mod site_count;
mod site_set;

pub use identifiers_and_homes::{Key, SegId, SiteId, home_of_id, home_of_key};
pub use limits::{MAX_FRAMES, MAX_SEGMENT_BYTES, PAGE_BYTES, PAGES, SEGMENTS_OF_A_HOME};
pub use page_arithmetic::{place, rounded};
pub use page_id::{PageId, in_limits, manager_of};
pub use site_count::{MAX_SITES, NoSuchSite, Sites};
pub use site_set::SiteSet;

#[cfg(test)]
mod tests;
