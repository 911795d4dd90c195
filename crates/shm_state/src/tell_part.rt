//! One part of a site's state more that is told.
ghost use Rattle.std.specs.Prelude.{◌≡◌, ◌<◌, ◌++◌, [], ◌∷◌, false, OnOk};
ghost use Rattle.shm_state.specs.PartOf.{part_in};
ghost use Rattle.shm_state.specs.Stage.{rank, stage_of};
ghost use Rattle.shm_state.specs.Telling.{AreOrdered, is_taken, said_by};
ghost use Rattle.shm_state.specs.Told.{state_with};

use crate::part::Part;
use std::alloc::{AllocError, Allocator};

/// Tells a part behind those that were told.
pub(crate) fn tell<A: Allocator + Copy>(
    out: &mut Vec<Part<A>, A>,
    part: Part<A>,
) -> Result<(), AllocError>
    ensures items { OnOk result (out.new.items ≡ out.old.items ++ part ∷ []) }
    ensures said { OnOk result (said_by out.new.items ≡ state_with (part_in part) (said_by out.old.items)) }
{
    out.push(part)?;
    Ok(())
}

/// Tells a part that may stand behind others of its kind.
pub(crate) fn tell_next<A: Allocator + Copy>(
    out: &mut Vec<Part<A>, A>,
    part: Part<A>,
) -> Result<(), AllocError>
    requires later { 3 < rank (stage_of (part_in part)) }
    requires order { AreOrdered (stage_of (part_in part)) out.old.items }
    requires free { is_taken (part_in part) (said_by out.old.items) ≡ false }
    ensures said { OnOk result (said_by out.new.items ≡ state_with (part_in part) (said_by out.old.items)) }
    ensures order { OnOk result (AreOrdered (stage_of (part_in part)) out.new.items) }
{
    tell(out, part)
}
