ghost use Rattle.std.specs.Prelude.{◌≡◌, IfOk};

use crate::segment_table::SegTable;
use indexmap::IndexMap;
use std::alloc::{AllocError, Allocator};
use std::hash::{BuildHasherDefault, FoldHasher};

fn copy_keys<A: Allocator + Copy>(
    keys: &IndexMap<u32, usize, BuildHasherDefault<FoldHasher>, A>,
) -> Result<IndexMap<u32, usize, BuildHasherDefault<FoldHasher>, A>, AllocError>
    ensures { IfOk result (λ copy. copy.entries ≡ keys.now.entries) }
{
    match keys.clone() {
        Ok(copy) => Ok(copy),
        Err(error) => Err(error),
    }
}

impl<A: Allocator + Copy> SegTable<A> {
    /// An equal table.
    pub fn copy(&self) -> Result<SegTable<A>, AllocError>
        ensures { IfOk result (λ table. table ≡ self.now) }
    {
        let alloc = *self.segments.allocator();
        let segments = Vec::from_slice(alloc, self.segments.as_slice())?;
        let keys = copy_keys(&self.keys)?;
        let mut purges = Vec::from_slice(alloc, self.purges.as_slice())?;
        purges.reserve(self.live)?;
        Ok(SegTable {
            home: self.home,
            sites: self.sites,
            segments,
            keys,
            live: self.live,
            purges,
        })
    }
}
