//! The segments that a site has purged.
ghost use Rattle.std.specs.Prelude.{◌≡◌, false, true, length, slice_get, IfOk, OnOk, OnErr};
ghost use Rattle.shm_model.specs.Basics.{at};

use indexmap::IndexMap;
use shm_place::SegId;
use std::alloc::{AllocError, Allocator, Global};
use std::hash::{BuildHasherDefault, FoldHasher};

/// The identifiers of the segments that a site has purged. They are never forgotten.
#[derive(Drop)]
pub struct Purged<A: Allocator + Copy = Global> {
    pub(crate) map: IndexMap<u32, (), BuildHasherDefault<FoldHasher>, A>,
}

impl<A: Allocator + Copy> Purged<A> {
    ghost use Rattle.shm_parts.specs.Listed.{purged_in, purged_list};
    ghost use Rattle.shm_parts.specs.Purged.{purged_of};

    /// No segment was purged.
    pub fn new(alloc: A) -> Purged<A>
        ensures { purged_of result ≡ (λ _. false) }
    {
        Purged {
            map: IndexMap::new(alloc),
        }
    }

    /// Checks that the segment was purged.
    pub fn contains(&self, id: SegId) -> bool
        ensures { result ≡ purged_of self.now id }
    {
        self.map.contains_key(&id.0)
    }

    /// How many segments were purged.
    pub fn count(&self) -> usize
        ensures count { result ≡ length (purged_list self.now) }
        ensures listed { purged_of self.now ≡ purged_in (purged_list self.now) }
    {
        self.map.len()
    }

    /// The purged segment in this place of the order in which they were noted. None: not so many were.
    pub fn at_place(&self, place: usize) -> Option<SegId>
        ensures { result ≡ slice_get (purged_list self.now) place }
    {
        let Some((id, _)) = self.map.get_index(place) else {
            return None;
        };
        Some(SegId(*id))
    }

    /// Notes the segment as purged. Where memory is refused nothing changes.
    pub fn insert(&mut self, id: SegId) -> Result<(), AllocError>
        ensures added { OnOk result (purged_of self.new ≡ at (purged_of self.old) id true) }
        ensures refused { OnErr result (purged_of self.new ≡ purged_of self.old) }
    {
        match self.map.insert(id.0, ()) {
            Ok(_) => Ok(()),
            Err(_) => Err(AllocError),
        }
    }

    /// The same segments.
    pub fn copy(&self) -> Result<Purged<A>, AllocError>
        ensures { IfOk result (λ copy. purged_of copy ≡ purged_of self.now) }
    {
        match self.map.clone() {
            Ok(map) => Ok(Purged { map }),
            Err(error) => Err(error),
        }
    }
}
