//! The entries of a journal.
ghost use Rattle.std.specs.Prelude.{◌≡◌, ◌==◌, ◌&&◌, Some, IfOk};
ghost use Rattle.shm_journal.specs.EntryOf.{entry_of};
ghost use Rattle.shm_logs.specs.Boxes.SiteBox.{box_of};
ghost use Rattle.shm_process.specs.CauseOf.{cause_of};
ghost use Rattle.shm_process.specs.Recorded.{IsEntry, entries_from};
ghost use Rattle.shm_process.specs.StepsOf.{steps_left};
ghost use Rattle.shm_audit.specs.Entered.{IsEntered, box_after, box_after_all, box_after_entry, box_handed};
ghost use Rattle.shm_audit.specs.Found.{begins_as_state};
ghost use Rattle.shm_audit.specs.HandedOf.{handed_of};

use crate::box_replay_input::{Handed, handed_input};
use shm_journal::{Entry, Replay, parse_entry};
use shm_logs::{BoxFault, SiteBox};
use shm_process::{Cause, Steps};
use std::alloc::{AllocError, Allocator, Global};

/// A site whose box takes the steps that its journal records.
#[derive(Drop)]
pub(crate) struct Audited<A: Allocator + Copy = Global> {
    pub(crate) site_box: SiteBox<A>,
    /// Whether the journal begins with a state: then the box lacks all steps before.
    pub(crate) begins_with_state: bool,
}

impl<A: Allocator + Copy> Replay<A> for Audited<A> {
    ghost use Rattle.shm_audit.specs.Found.{Reading, next_reading};
    ghost use Rattle.shm_audit.specs.ReadingOf.{Stands};

    ghost State = { Reading };

    ghost stands = { Stands };

    ghost next = { next_reading };

    fn replay_line(&mut self, alloc: A, line: &[u8]) -> Result<bool, AllocError> {
        if self.begins_with_state {
            return Ok(true);
        }
        match parse_entry(alloc, line) {
            Ok(Some(entry)) => enter(alloc, &mut self.site_box, entry),
            Ok(None) => {
                self.begins_with_state = begins_with_state(&self.site_box, line);
                Ok(self.begins_with_state)
            }
            Err(refused) => Err(refused),
        }
    }
}

/// Checks that a line, which is no entry, is one of a state that stands before each step.
fn begins_with_state<A: Allocator + Copy>(site_box: &SiteBox<A>, line: &[u8]) -> bool
    ensures { result ≡ (((box_of site_box.now).clock == 0) && begins_as_state line.now) }
{
    site_box.clock() == 0 && line.starts_with(b"state ".as_slice())
}

/// The box takes the steps that the entry records, if they can be its next ones.
fn enter<A: Allocator + Copy>(
    alloc: A,
    site_box: &mut SiteBox<A>,
    entry: Entry<A>,
) -> Result<bool, AllocError>
    requires { IsEntry (entry_of entry) }
    ensures { IfOk result (λ made. IsEntered made (box_after_entry (box_of site_box.old) (entry_of entry)) (box_of site_box.new)) }
{
    let Entry { clock, cause } = entry;
    let mut steps = Steps::of(alloc, cause);
    enter_steps(site_box, clock, &mut steps)
}

/// The box takes these steps, the first under this clock and each other one under the next, if they can be its next ones.
fn enter_steps<A: Allocator + Copy>(
    site_box: &mut SiteBox<A>,
    first: u64,
    steps: &mut Steps<A>,
) -> Result<bool, AllocError>
    ensures { IfOk result (λ made. IsEntered made (box_after_all (box_of site_box.old) (entries_from first (steps_left steps.old))) (box_of site_box.new)) }
{
    let mut next = Some(first);
    'steps: while let Some(cause) = steps.next() {
        let Some(clock) = next else {
            return Ok(false);
        };
        if !enter_step(site_box, clock, cause)? {
            return Ok(false);
        }
        next = clock.checked_add(1);
    }
    Ok(true)
}

/// The box takes the step that this makes under this clock, if that can be its next.
fn enter_step<A: Allocator + Copy>(
    site_box: &mut SiteBox<A>,
    clock: u64,
    cause: Cause<A>,
) -> Result<bool, AllocError>
    ensures { IfOk result (λ made. IsEntered made (box_after (box_of site_box.old) (record { clock = clock; cause = cause_of cause })) (box_of site_box.new)) }
{
    match handed_input(site_box.log().site(), cause) {
        Some(handed) => take(site_box, clock, handed),
        None => Ok(false),
    }
}

/// The box takes the input of a step, if that can be its next under this clock.
fn take<A: Allocator + Copy>(
    site_box: &mut SiteBox<A>,
    clock: u64,
    handed: Handed<A>,
) -> Result<bool, AllocError>
    ensures { IfOk result (λ made. IsEntered made (box_handed clock (box_of site_box.old) (Some (handed_of handed))) (box_of site_box.new)) }
{
    let Handed { input, source } = handed;
    match site_box.take(input, source) {
        Ok(_) if site_box.clock() == clock => Ok(true),
        Err(BoxFault::OutOfMemory) => Err(AllocError),
        _ => Ok(false),
    }
}
