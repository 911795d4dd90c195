//! The envelopes that a step sent, copied from the site's log for the channels.
ghost use Rattle.std.specs.Prelude.{◌≡◌, ◌++◌, ◌∷◌, [], Some, IfOk, OnOk, slice_get};
ghost use Rattle.shm_parts.specs.Message.{envelope_of};
ghost use Rattle.shm_logs.specs.Boxes.Logged.{logged_of, stamp_of};
ghost use Rattle.shm_logs.specs.Boxes.SiteLog.{steps_of};
ghost use Rattle.shm_sites.specs.Cluster.Posted.{all_sent, sent_at, sent_by};
ghost use Rattle.shm_sites.specs.Cluster.Sent.{IsSent};

use crate::cluster::posted_envelope::Posted;
use shm_logs::{Envelope, SiteLog, Stamp, Step};
use std::alloc::{AllocError, Allocator};

/// All that the step of this index sent; nothing, where the log has no such step.
pub(crate) fn copies_of<A: Allocator + Copy>(
    alloc: A,
    log: &SiteLog<A>,
    index: usize,
) -> Result<Vec<Posted<A>, A>, AllocError>
    ensures { IfOk result (λ all. all_sent all.items ≡ sent_at (steps_of log.now) index) }
{
    let steps = log.steps();
    if index >= steps.len() {
        return Ok(Vec::new(alloc));
    }
    copies(alloc, log, &steps[index], index)
}

/// All that the step of this index in the log sent, each envelope with its place.
fn copies<A: Allocator + Copy>(
    alloc: A,
    log: &SiteLog<A>,
    step: &Step<A>,
    index: usize,
) -> Result<Vec<Posted<A>, A>, AllocError>
    requires { slice_get (steps_of log.now) index ≡ Some (logged_of step.now) }
    ensures { IfOk result (λ all. all_sent all.items ≡ sent_by index (logged_of step.now)) }
{
    let mut all = Vec::new(alloc);
    let at = step.stamp;
    'places: for (place, envelope) in step.sent.iter().enumerate() {
        add(&mut all, envelope, Stamp { at, index, place })?;
    }
    Ok(all)
}

/// Adds a copy of an envelope that was sent there.
fn add<A: Allocator + Copy>(
    all: &mut Vec<Posted<A>, A>,
    envelope: &Envelope<A>,
    source: Stamp,
) -> Result<(), AllocError>
    requires { IsSent (record { envelope = envelope_of envelope.now; source = stamp_of source }) }
    ensures { OnOk result (all_sent all.new.items ≡ all_sent all.old.items ++ record { envelope = envelope_of envelope.now; source = stamp_of source } ∷ []) }
{
    let posted = Posted::of(envelope, source)?;
    all.reserve(1)?;
    all.push_reserved(posted);
    Ok(())
}
