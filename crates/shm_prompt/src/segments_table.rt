//! `segments`: the segments, in the columns of `ipcs -m`.
use shm_keys::Segment;
use shm_place::SiteId;
use shm_world::World;
use std::alloc::{AllocError, Allocator};

/// The columns' names.
const HEADING: &str = "key        shmid      owner      perms      bytes      nattch     status\n";

/// Lists the segments of all homes, without the destroyed ones.
pub(crate) fn list_segments<A: Allocator + Copy>(
    text: &mut String<A>,
    world: &World<A>,
) -> Result<(), AllocError> {
    text.push_str(HEADING)?;
    'homes: for home in 0..world.sites().count() {
        list_home(text, world, SiteId(home))?;
    }
    Ok(())
}

/// Lists the segments whose home is this site.
fn list_home<A: Allocator + Copy>(
    text: &mut String<A>,
    world: &World<A>,
    home: SiteId,
) -> Result<(), AllocError> {
    let Some(site) = world.site(home) else {
        return Ok(());
    };
    'segments: for segment in site.segments() {
        list_segment(text, segment)?;
    }
    Ok(())
}

fn list_segment<A: Allocator + Copy>(
    text: &mut String<A>,
    segment: &Segment,
) -> Result<(), AllocError> {
    if is_destroyed(segment) {
        return Ok(());
    }
    let key = segment.key.0;
    let id = segment.id.0;
    let owner = segment.uid;
    let mode = segment.mode;
    let size = segment.size;
    let nattch = segment.nattch;
    let status = if segment.marked { "dest" } else { "" };
    write!(
        text,
        "0x{key:08x} {id:<10} {owner:<10} {mode}        {size:<10} {nattch:<10} "
    )?;
    text.push_str(status)?;
    text.push_str("\n")
}

/// Checks that nobody can reach the segment again: it is marked, and nobody is attached.
fn is_destroyed(segment: &Segment) -> bool {
    segment.marked && segment.nattch == 0
}
