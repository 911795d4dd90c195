//! A run from its opening to its end.
ghost use Rattle.std.specs.Prelude.{◌≡◌, ◌≤◌, ◌+◌, ◌⊎◌, List, true, length, IfOk, OnOk};
ghost use Rattle.shm_model.specs.World as model;
ghost use Rattle.shm_lines.specs.declared.workload_access.WorkloadAccess.{WorkloadAccess};
ghost use Rattle.shm_simulate.specs.PartialRun.{Follows};
ghost use Rattle.shm_simulate.specs.Tries.{all_done, may_choose, most_events, Ended};
ghost use Rattle.shm_simulate.specs.declared.odds.Odds.{Odds};

use crate::odds::Odds;
use crate::partial_run::PartialRun;
use crate::scheduler::{Choice, Scheduler};
use shm_lines::WorkloadAccess;
use shm_model::Event;
use shm_place::{PAGES, SiteId, Sites};
use std::alloc::{AllocError, Global};

/// How many events a run has at most for each line.
const EVENTS_OF_A_LINE: usize = 1_000;

/// How many events a run has at most: one fewer than a script has lines.
const MOST_EVENTS: usize = 99_999;

/// The run of this seed, to its end: until every line is done, or until it is given up.
pub(crate) fn play(
    alloc: Global,
    sites: Sites,
    pages: u32,
    accesses: &[WorkloadAccess],
    odds: Odds,
    seed: u32,
) -> Result<PartialRun, AllocError>
    requires from { 1 ≤ pages }
    requires to { pages ≤ PAGES }
    ensures follows { IfOk result (Follows (model.Preset sites pages) accesses.now odds) }
    ensures ended { IfOk result (λ partial. Ended partial.lines.items partial.events.items) }
{
    let mut partial = PartialRun::open(alloc, sites, pages, accesses)?;
    let mut scheduler = Scheduler::new(alloc, sites, seed)?;
    begin(&partial, &mut scheduler, sites);
    let most = most_of(accesses.len());
    go_on(&mut partial, &mut scheduler, odds, most)?;
    Ok(partial)
}

/// Callers without lines are done.
fn begin(partial: &PartialRun, scheduler: &mut Scheduler, sites: Sites) {
    'sites: for number in 0..sites.count() {
        if !partial.has_line(SiteId(number)) {
            scheduler.done(SiteId(number));
        }
    }
}

/// How many events a run of so many lines has at most.
fn most_of(lines: usize) -> usize
    ensures { result ≡ most_events lines }
{
    lines.saturating_mul(EVENTS_OF_A_LINE).min(MOST_EVENTS)
}

/// Goes on until every line is done, or until this many events were made.
fn go_on(
    partial: &mut PartialRun,
    scheduler: &mut Scheduler,
    odds: Odds,
    most: usize,
) -> Result<(), AllocError>
    requires { length partial.old.events.items ≡ 0 }
    ensures follows { (o : model.Opening) (accesses : List WorkloadAccess) → Follows o accesses odds partial.old → OnOk result (Follows o accesses odds partial.new) }
    ensures lines { OnOk result (length partial.new.lines.items ≡ length partial.old.lines.items) }
    ensures ended { OnOk result ((all_done partial.new.lines.items ≡ true) ⊎ (length partial.new.events.items ≡ most)) }
{
    'events: for _ in 0..most {
        if partial.is_done() {
            return Ok(());
        }
        let choice = scheduler.choose(odds);
        happen(partial, scheduler, choice)?;
        scheduler.look(partial.sent())?;
    }
    Ok(())
}

/// Makes one event, which was chosen so.
fn happen(
    partial: &mut PartialRun,
    scheduler: &mut Scheduler,
    choice: Choice,
) -> Result<(), AllocError>
    ensures follows { (o : model.Opening) (accesses : List WorkloadAccess) (odds : Odds) → may_choose odds choice ≡ true → Follows o accesses odds partial.old
        → OnOk result (Follows o accesses odds partial.new) }
    ensures lines { OnOk result (length partial.new.lines.items ≡ length partial.old.lines.items) }
    ensures one { OnOk result (length partial.new.events.items ≡ length partial.old.events.items + 1) }
{
    match choice {
        Choice::Line(site) => try_line(partial, scheduler, site),
        Choice::Deliver(number) => {
            wake(partial, scheduler, number);
            partial.deliver(number)
        }
        Choice::Repeat(number) => {
            wake(partial, scheduler, number);
            partial.repeat(number)
        }
        Choice::Lose(number) => partial.pass(Event::Lose(number)),
        Choice::Tick(site) => partial.pass(Event::Tick { site }),
        Choice::Restart(site) => {
            scheduler.stepped(site);
            partial.pass(Event::Restart { site })
        }
    }
}

/// The caller of the site that is to receive the envelope of this number may try again then.
fn wake(partial: &PartialRun, scheduler: &mut Scheduler, number: u64) {
    if let Some(site) = partial.receiver(number) {
        scheduler.stepped(site);
    }
}

/// The site's caller tries its next line. Where it has none, the site ticks.
fn try_line(
    partial: &mut PartialRun,
    scheduler: &mut Scheduler,
    site: SiteId,
) -> Result<(), AllocError>
    ensures follows { (o : model.Opening) (accesses : List WorkloadAccess) (odds : Odds) → Follows o accesses odds partial.old
        → OnOk result (Follows o accesses odds partial.new) }
    ensures lines { OnOk result (length partial.new.lines.items ≡ length partial.old.lines.items) }
    ensures one { OnOk result (length partial.new.events.items ≡ length partial.old.events.items + 1) }
{
    match partial.try_line(site) {
        Ok(Some(waits)) => {
            heed(partial, scheduler, site, waits);
            Ok(())
        }
        Ok(None) => {
            scheduler.done(site);
            partial.pass(Event::Tick { site })
        }
        Err(_) => Err(AllocError),
    }
}

/// What the site's caller does once it has tried a line, and has to wait or not.
fn heed(partial: &PartialRun, scheduler: &mut Scheduler, site: SiteId, waits: bool) {
    if waits {
        scheduler.waits(site);
        return;
    }
    if !partial.has_line(site) {
        scheduler.done(site);
    }
}
