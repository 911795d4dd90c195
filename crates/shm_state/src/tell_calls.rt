//! Tells a site's requests and calls, and what it keeps as a home of segments.
ghost use Rattle.std.specs.Prelude.{◌≡◌, ◌++◌, [], ◌∷◌, length, None, OnOk};
ghost use Rattle.shm_number.specs.Kept.{kept_at};
ghost use Rattle.shm_attach.specs.CallBook.{outstanding_of};
ghost use Rattle.shm_keys.specs.Restored.{purge_from};
ghost use Rattle.shm_state.specs.Telling.{AreOrdered, put_below, put_if, said_by};
ghost use Rattle.shm_state.specs.Told.{told_nothing};
ghost use Rattle.shm_state.specs.declared.told_stage.Stage.TheVariants as stage;

use crate::part::Part;
use crate::tell_part::{tell, tell_next};
use shm_attach::CallBook;
use shm_keys::{SegTable, Segment};
use shm_model::{Op, Reply};
use shm_number::Number;
use shm_place::{SegId, SiteId, SiteSet};
use std::alloc::{AllocError, Allocator};

pub(crate) fn tell_calls<A: Allocator + Copy>(
    requests: Number,
    calls: &CallBook,
    out: &mut Vec<Part<A>, A>,
) -> Result<(), AllocError>
    requires { out.old.items ≡ [] }
    ensures said { OnOk result (said_by out.new.items ≡ record told_nothing.state { requests = requests; calls = calls.now }) }
    ensures order { OnOk result (AreOrdered stage.Outstanding out.new.items) }
{
    tell_counts(requests, calls.begun(), out)?;
    tell_outstanding(calls.outstanding(), out)
}

fn tell_counts<A: Allocator + Copy>(
    requests: Number,
    begun: Number,
    out: &mut Vec<Part<A>, A>,
) -> Result<(), AllocError>
    requires { out.old.items ≡ [] }
    ensures said { OnOk result (said_by out.new.items
        ≡ record told_nothing.state { requests = requests; calls = record { begun = begun; outstanding = None } }) }
    ensures order { OnOk result (AreOrdered stage.Calls out.new.items) }
{
    tell(out, Part::Requests(requests))?;
    tell(out, Part::Calls(begun))
}

fn tell_outstanding<A: Allocator + Copy>(
    call: Option<(Number, Op)>,
    out: &mut Vec<Part<A>, A>,
) -> Result<(), AllocError>
    requires none { (said_by out.old.items).calls.outstanding ≡ None }
    requires order { AreOrdered stage.Calls out.old.items }
    ensures said { OnOk result (said_by out.new.items ≡ record (said_by out.old.items) { calls = record (said_by out.old.items).calls { outstanding = outstanding_of call } }) }
    ensures order { OnOk result (AreOrdered stage.Outstanding out.new.items) }
{
    match call {
        None => Ok(()),
        Some((number, op)) => tell(out, Part::Outstanding { number, op }),
    }
}

pub(crate) fn tell_segments<A: Allocator + Copy>(
    segments: &[Segment],
    out: &mut Vec<Part<A>, A>,
) -> Result<(), AllocError>
    requires order { AreOrdered stage.Segments out.old.items }
    ensures said { OnOk result (said_by out.new.items ≡ record (said_by out.old.items) { table = (said_by out.old.items).table ++ segments.now }) }
    ensures order { OnOk result (AreOrdered stage.Segments out.new.items) }
{
    'segments: for segment in segments {
        tell_next(out, Part::Segment(*segment))?;
    }
    Ok(())
}

pub(crate) fn tell_missing<A: Allocator + Copy>(
    table: &SegTable<A>,
    out: &mut Vec<Part<A>, A>,
) -> Result<(), AllocError>
    requires order { AreOrdered stage.Missing out.old.items }
    ensures said { OnOk result (said_by out.new.items ≡ record (said_by out.old.items) { missing = (said_by out.old.items).missing ++ table.now.missing }) }
    ensures order { OnOk result (AreOrdered stage.Missing out.new.items) }
{
    'places: for place in 0..table.pending_count() {
        let Some(purge) = table.pending_purge(place) else {
            unreachable!()
        };
        tell_purge(purge, out)?;
    }
    Ok(())
}

/// Tells a destroyed segment and the sites that have yet to purge it.
fn tell_purge<A: Allocator + Copy>(
    purge: (SegId, SiteSet),
    out: &mut Vec<Part<A>, A>,
) -> Result<(), AllocError>
    requires order { AreOrdered stage.Missing out.old.items }
    ensures said { OnOk result (said_by out.new.items ≡ record (said_by out.old.items) { missing = (said_by out.old.items).missing ++ purge_from purge ∷ [] }) }
    ensures order { OnOk result (AreOrdered stage.Missing out.new.items) }
{
    let (id, missing) = purge;
    tell_next(out, Part::Missing { id, missing })
}

pub(crate) fn tell_kept<A: Allocator + Copy>(
    replies: &[Option<(Number, Reply)>],
    out: &mut Vec<Part<A>, A>,
) -> Result<(), AllocError>
    requires sites { length replies.now ≡ 16 }
    requires order { AreOrdered stage.Kept out.old.items }
    requires fresh { (said_by out.old.items).kept ≡ [] }
    ensures said { OnOk result (said_by out.new.items ≡ record (said_by out.old.items) { kept = put_below 16 replies.now (said_by out.old.items).kept }) }
    ensures order { OnOk result (AreOrdered stage.Kept out.new.items) }
{
    'sites: for site in 0..16 {
        tell_reply(SiteId(site), replies[site as usize], out)?;
    }
    Ok(())
}

fn tell_reply<A: Allocator + Copy>(
    site: SiteId,
    kept: Option<(Number, Reply)>,
    out: &mut Vec<Part<A>, A>,
) -> Result<(), AllocError>
    requires order { AreOrdered stage.Kept out.old.items }
    requires free { kept_at (said_by out.old.items).kept site ≡ None }
    ensures said { OnOk result (said_by out.new.items ≡ record (said_by out.old.items) { kept = put_if site kept (said_by out.old.items).kept }) }
    ensures order { OnOk result (AreOrdered stage.Kept out.new.items) }
{
    match kept {
        None => Ok(()),
        Some((number, reply)) => tell_next(
            out,
            Part::Kept {
                site,
                number,
                reply,
            },
        ),
    }
}
