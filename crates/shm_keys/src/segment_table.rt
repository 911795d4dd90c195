ghost use Rattle.std.specs.Prelude.{◌≡◌, ℕ, ◌<◌, ◌/◌, [], IfOk, IfErr};
ghost use Rattle.shm_place.specs.Home.{home_of_id};
ghost use Rattle.shm_model.specs.Permission.{Segment as Record};
ghost use Rattle.shm_model.specs.Kernel.{Called, on_live, refuse, with_id};

use crate::pending_purge::Purge;
use crate::segment_record::Segment;
use indexmap::IndexMap;
use shm_model::Errno;
use shm_place::{SegId, SiteId, Sites};
use std::alloc::{Allocator, Global};
use std::hash::{BuildHasherDefault, FoldHasher};
use std::marker::Model;

/// The segments that one home has made, and who has yet to purge the destroyed ones.
#[derive(Drop)]
pub struct SegTable<A: Allocator + Copy = Global> {
    pub(crate) home: SiteId,
    pub(crate) sites: Sites,
    /// In the order of making, so that an identifier divided by the number of sites is a place here.
    pub(crate) segments: Vec<Segment, A>,
    /// The places of the segments that have a key.
    pub(crate) keys: IndexMap<u32, usize, BuildHasherDefault<FoldHasher>, A>,
    /// How many aren't destroyed.
    pub(crate) live: usize,
    /// The destroyed ones that sites have yet to purge. There is room for each live one.
    pub(crate) purges: Vec<Purge, A>,
}

impl<A: Allocator + Copy> Model for SegTable<A> {
    ghost use Rattle.std.specs.Prelude.{nat_eq, vec_capacity};
    ghost use Rattle.indexmap.specs.IndexMap.{get};
    ghost use Rattle.shm_keys.specs.Table.{Table, IsTable};

    ghost Value = { Table };

    ghost view = { λ t. record { home = t.home; sites = t.sites; segments = t.segments.items; missing = t.purges.items } };

    ghost invariant = { λ t. IsTable t.home t.sites t.segments.items (get nat_eq t.keys) t.live t.purges.items (vec_capacity t.purges) };
}

/// The place of the identifier's segment in the order of making.
pub(crate) fn place_of(sites: Sites, id: SegId) -> usize
    requires { 0 < sites }
    ensures { result ≡ id / sites }
{
    (id.0 / sites.count()) as usize
}

impl<A: Allocator + Copy> SegTable<A> {
    ghost use Rattle.shm_keys.specs.Table.{IsLive};

    /// A home's table before any segment was made.
    pub fn new(alloc: A, home: SiteId, sites: Sites) -> SegTable<A>
        requires { home < sites }
        ensures { result ≡ record { home = home; sites = sites; segments = []; missing = [] } }
    {
        SegTable {
            home,
            sites,
            segments: Vec::new(alloc),
            keys: IndexMap::new(alloc),
            live: 0,
            purges: Vec::new(alloc),
        }
    }

    /// All segments that the home ever made, the destroyed ones too, in the order of making.
    pub fn segments(&self) -> &[Segment]
        ensures { result.now ≡ self.now.segments }
    {
        self.segments.as_slice()
    }

    /// The segment that has the identifier and isn't destroyed.
    pub(crate) fn live(&self, id: SegId) -> Result<Segment, Errno>
        requires { home_of_id self.now.sites id ≡ self.now.home }
        ensures live { IfOk result (λ g. IsLive self.now.segments id g) }
        ensures refused { IfErr result (λ errno. (call : Record → Called)
            → on_live (with_id id self.now.segments) call self.now.segments ≡ refuse errno self.now.segments) }
    {
        let place = place_of(self.sites, id);
        if place >= self.segments.len() {
            return Err(Errno::Einval);
        }
        let segment = self.segments[place];
        if segment.is_destroyed() {
            return Err(Errno::Eidrm);
        }
        Ok(segment)
    }
}
