use shm_parts::Envelope;
use shm_place::SiteId;
use shm_site::Site;
use std::alloc::{Allocator, Global};

/// What an event may change of a world, as it was before: the site that it steps, with its number; the envelope that it takes off its way,
/// with its number; and how many were sent.
#[derive(Drop)]
pub struct Undo<A: Allocator + Copy = Global> {
    pub(crate) site: Option<(SiteId, Site<A>)>,
    pub(crate) taken: Option<(u64, Envelope<A>)>,
    pub(crate) sent: u64,
}
