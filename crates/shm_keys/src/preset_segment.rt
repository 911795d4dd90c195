ghost use Rattle.std.specs.Prelude.{◌≡◌, ◌<◌, ◌≤◌, ◌*◌, [], ◌∷◌, vec_capacity, IfOk};
ghost use Rattle.shm_model.specs.World.{preset_segment, preset_table};

use crate::pending_purge::Purge;
use crate::segment_record::Segment;
use crate::segment_table::SegTable;
use indexmap::IndexMap;
use shm_model::Mode;
use shm_place::{Key, PAGE_BYTES, PAGES, SegId, SiteId, Sites};
use std::alloc::{AllocError, Allocator};

/// Segment 0 with this number of pages. It is attached once at every site, and everyone may read and write it.
fn first_segment(sites: Sites, pages: u32) -> Segment
    requires { pages ≤ PAGES }
    ensures { result ≡ preset_segment sites pages }
{
    Segment {
        id: SegId(0),
        key: Key(0),
        uid: 0,
        gid: 0,
        cuid: 0,
        cgid: 0,
        mode: Mode::ALL_READ_WRITE,
        size: PAGE_BYTES as u32 * pages,
        nattch: sites.count() as u64,
        marked: false,
    }
}

/// Room to note one destroyed segment.
fn room_for_one<A: Allocator + Copy>(alloc: A) -> Result<Vec<Purge, A>, AllocError>
    ensures none { IfOk result (λ purges. purges.items ≡ []) }
    ensures room { IfOk result (λ purges. 1 ≤ vec_capacity purges) }
{
    let mut purges = Vec::new(alloc);
    purges.reserve(1)?;
    Ok(purges)
}

impl<A: Allocator + Copy> SegTable<A> {
    /// A home's table with segment 0 made before any call. Its home is site 0: any other site's table is empty.
    pub fn preset(
        alloc: A,
        home: SiteId,
        sites: Sites,
        pages: u32,
    ) -> Result<SegTable<A>, AllocError>
        requires below { home < sites }
        requires from { 1 ≤ pages }
        requires to { pages ≤ PAGES }
        ensures { IfOk result (λ table. table ≡ record { home = home; sites = sites; segments = preset_table sites pages home; missing = [] }) }
    {
        if home.0 != 0 {
            return Ok(SegTable::new(alloc, home, sites));
        }
        let segments = Vec::from_slice(alloc, &[first_segment(sites, pages)])?;
        let purges = room_for_one(alloc)?;
        Ok(SegTable {
            home,
            sites,
            segments,
            keys: IndexMap::new(alloc),
            live: 1,
            purges,
        })
    }
}
