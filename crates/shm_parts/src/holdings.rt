ghost use Rattle.shm_parts.specs.Reach.{IsReached};

use crate::frame_order::Frames;
use crate::likely_entry_places::FirstPlaces;
use crate::page_entries::Entries;
use crate::purged_segments::Purged;
use shm_attach::Attachments;
use shm_place::{SiteId, Sites};
use std::alloc::{Allocator, Global};

/// A site's pages: their entries, the attachments that reach them, the segments that it purged and, where there are frames, the copies in
/// the order in which the site gives them up. The site's number, and that of all sites, say which pages it manages.
#[derive(Drop)]
pub struct Holdings<A: Allocator + Copy = Global> {
    pub(crate) sites: Sites,
    pub(crate) me: SiteId,
    pub(crate) entries: Entries<A>,
    pub(crate) attachments: Attachments,
    pub(crate) first_places: FirstPlaces,
    pub(crate) purged: Purged<A>,
    pub(crate) frames: Option<Frames<A>>,
    pub(crate) alloc: A,
    ghost reached: { IsReached sites me entries attachments purged frames },
}
