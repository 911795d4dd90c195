//! How C makes, copies and frees a world.
ghost use Rattle.std.specs.Prelude.{◌≡◌, false, true, None, Some, is_some, MatchOption};
ghost use Rattle.shm_model.specs.World as model;
ghost use Rattle.shm_model.specs.Opening.{opening_of};
ghost use Rattle.shm_c.specs.Held.{Holds};
ghost use Rattle.shm_c.specs.Openings.{is_opening, numbered_opening, Begun};

use crate::world_handle::WorldHandle;
use shm_model::Opening;
use shm_place::{MAX_FRAMES, PAGES, Sites};
use shm_world::World;
use std::alloc::Global;

/// It was done.
pub(crate) const DONE: u32 = 0;

/// The numbers are no opening's (`EINVAL`).
pub(crate) const BAD_NUMBERS: u32 = 4;

/// Memory was refused.
pub(crate) const NO_MEMORY: u32 = 17;

/// The handle has a world already.
pub(crate) const FULL: u32 = 32;

/// The handle has no world.
pub(crate) const EMPTY: u32 = 33;

/// The opening of these numbers, if they are one: 0 pages for no segment, 0 frames for any number of copies.
pub(crate) fn numbered_opening(sites: u32, pages: u32, frames: u32) -> Option<Opening>
    ensures { MatchOption result (is_opening sites pages frames ≡ false)
        (λ opening. (is_opening sites pages frames ≡ true) × model.IsOpening (opening_of opening) × (opening_of opening ≡ numbered_opening sites pages frames)) }
{
    let Ok(sites) = Sites::new(sites) else {
        return None;
    };
    if PAGES < pages || MAX_FRAMES < frames {
        return None;
    }
    // Reading it tells the proof its limits.
    let _count = sites.count();
    if pages == 0 {
        return Some(Opening::new(sites));
    }
    if frames == 0 {
        return Some(Opening::preset(sites, pages));
    }
    Some(Opening::framed(sites, pages, frames))
}

/// Makes a world in which nothing has happened, in an empty handle.
#[unsafe(no_mangle)]
pub extern "C" fn leddwyfan_world_make(
    alloc: Global,
    world: &mut WorldHandle,
    sites: u32,
    pages: u32,
    frames: u32,
) -> u32
    ensures full { is_some world.old.world ≡ true → (world.new.world ≡ world.old.world) × (result ≡ 32) }
    ensures wrong { world.old.world ≡ None → is_opening sites pages frames ≡ false → (world.new.world ≡ None) × (result ≡ 4) }
    ensures made { world.old.world ≡ None → is_opening sites pages frames ≡ true
        → Begun world.new.world (model.opened (numbered_opening sites pages frames)) result }
{
    if let Some(held) = world.take(alloc) {
        world.put(held);
        return FULL;
    }
    let Some(opening) = numbered_opening(sites, pages, frames) else {
        return BAD_NUMBERS;
    };
    let Ok(made) = World::begin(alloc, &opening) else {
        return NO_MEMORY;
    };
    let Ok(made) = Box::new(alloc, made) else {
        return NO_MEMORY;
    };
    world.put(made);
    DONE
}

/// Makes an equal world in the empty handle `copy`; both go on alone.
#[unsafe(no_mangle)]
pub extern "C" fn leddwyfan_world_copy(
    alloc: Global,
    world: &mut WorldHandle,
    copy: &mut WorldHandle,
) -> u32
    ensures kept { world.new.world ≡ world.old.world }
    ensures full { is_some copy.old.world ≡ true → (copy.new.world ≡ copy.old.world) × (result ≡ 32) }
    ensures empty { copy.old.world ≡ None → world.old.world ≡ None → (copy.new.world ≡ None) × (result ≡ 33) }
    ensures made { (w : model.World) → copy.old.world ≡ None → Holds world.old.world w → Begun copy.new.world w result }
{
    if let Some(held) = copy.take(alloc) {
        copy.put(held);
        return FULL;
    }
    let Some(held) = world.take(alloc) else {
        return EMPTY;
    };
    let made = held.copy();
    world.put(held);
    let Ok(made) = made else {
        return NO_MEMORY;
    };
    let Ok(made) = Box::new(alloc, made) else {
        return NO_MEMORY;
    };
    copy.put(made);
    DONE
}

/// Frees the world, if there is one, and leaves the handle empty.
#[unsafe(no_mangle)]
pub extern "C" fn leddwyfan_world_free(alloc: Global, world: &mut WorldHandle)
    ensures { world.new.world ≡ None }
{
    let _world = world.take(alloc);
}
