//! What C sees of a world.
ghost use Rattle.std.specs.Prelude.{◌≡◌, None, Some, length};
ghost use Rattle.shm_model.specs.World as model;
ghost use Rattle.shm_world.specs.Showing.{access, shown};
ghost use Rattle.shm_c.specs.Held.{Holds};
ghost use Rattle.shm_c.specs.Sent.{access_number, envelope_numbers, no_envelope, shown_numbers};

use crate::numbers::{EnvelopeNumbers, ShownNumbers};
use crate::spell_envelope::{access_number, envelope_numbers, no_envelope, shown_numbers};
use crate::world_handle::WorldHandle;
use shm_place::{PageId, SegId, SiteId};
use std::alloc::Global;

/// How many sites there are; 0 where the handle is empty.
#[unsafe(no_mangle)]
pub extern "C" fn leddwyfan_world_sites(alloc: Global, world: &mut WorldHandle) -> u32
    ensures kept { world.new.world ≡ world.old.world }
    ensures sites { (w : model.World) → Holds world.old.world w → result ≡ w.count }
    ensures empty { world.old.world ≡ None → result ≡ 0 }
{
    let Some(held) = world.take(alloc) else {
        return 0;
    };
    let count = held.sites().count();
    world.put(held);
    count
}

/// How many envelopes were ever sent: the next one has this number. 0 where the handle is empty.
#[unsafe(no_mangle)]
pub extern "C" fn leddwyfan_world_sent(alloc: Global, world: &mut WorldHandle) -> u64
    ensures kept { world.new.world ≡ world.old.world }
    ensures sent { (w : model.World) → Holds world.old.world w → result ≡ length w.sent }
    ensures empty { world.old.world ≡ None → result ≡ 0 }
{
    let Some(held) = world.take(alloc) else {
        return 0;
    };
    let sent = held.sent();
    world.put(held);
    sent
}

/// The envelope of this number, if it is on its way.
#[unsafe(no_mangle)]
pub extern "C" fn leddwyfan_world_envelope(
    alloc: Global,
    world: &mut WorldHandle,
    number: u64,
    out: &mut EnvelopeNumbers,
)
    ensures kept { world.new.world ≡ world.old.world }
    ensures envelope { (w : model.World) → Holds world.old.world w → out.new ≡ envelope_numbers (model.live w number) }
    ensures empty { world.old.world ≡ None → out.new ≡ no_envelope }
{
    *out = no_envelope();
    let Some(held) = world.take(alloc) else {
        return;
    };
    if let Some(envelope) = held.envelope(number) {
        *out = envelope_numbers(envelope);
    }
    world.put(held);
}

/// The access that the site has to the page: 0 none, 1 to read, 2 to write; 3 where there is no world, no such site or no such page.
#[unsafe(no_mangle)]
pub extern "C" fn leddwyfan_world_access(
    alloc: Global,
    world: &mut WorldHandle,
    site: u32,
    seg: u32,
    index: u32,
) -> u32
    ensures kept { world.new.world ≡ world.old.world }
    ensures access { (w : model.World) → Holds world.old.world w → result ≡ access_number (access w site (record { seg = seg; index = index })) }
    ensures empty { world.old.world ≡ None → result ≡ 3 }
{
    let Some(held) = world.take(alloc) else {
        return 3;
    };
    let access = held.access(
        SiteId(site),
        PageId {
            seg: SegId(seg),
            index,
        },
    );
    world.put(held);
    access_number(access)
}

/// The page as the site holds it.
#[unsafe(no_mangle)]
pub extern "C" fn leddwyfan_world_shown(
    alloc: Global,
    world: &mut WorldHandle,
    site: u32,
    seg: u32,
    index: u32,
) -> ShownNumbers
    ensures kept { world.new.world ≡ world.old.world }
    ensures shown { (w : model.World) → Holds world.old.world w → result ≡ shown_numbers (shown w site (record { seg = seg; index = index })) }
    ensures empty { world.old.world ≡ None → result ≡ shown_numbers None }
{
    let Some(held) = world.take(alloc) else {
        return shown_numbers(None);
    };
    let shown = held.shown(
        SiteId(site),
        PageId {
            seg: SegId(seg),
            index,
        },
    );
    world.put(held);
    shown_numbers(shown)
}
