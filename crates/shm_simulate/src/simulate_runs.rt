//! Many runs of a workload, and what came of them.
ghost use Rattle.std.specs.Prelude.{◌≡◌, ◌≤◌, ◌<◌, ◌++◌, ◌∷◌, [], List, length, map, string_bytes, IfOk, OnOk};
ghost use Rattle.shm_model.specs.World as model;
ghost use Rattle.shm_model.specs.declared.event.Event.{Event};
ghost use Rattle.shm_lines.specs.declared.workload_access.WorkloadAccess.{WorkloadAccess};
ghost use Rattle.shm_simulate.specs.PartialRun.{Follows};
ghost use Rattle.shm_simulate.specs.Tally.{IsTally, Tells, ToldOf};
ghost use Rattle.shm_simulate.specs.Measures.{measures_of};
ghost use Rattle.shm_simulate.specs.Spreads.{AreSpreads};
ghost use Rattle.shm_simulate.specs.Texts.{tally_text};
ghost use Rattle.shm_simulate.specs.Tries.{Ended};
ghost use Rattle.shm_simulate.specs.declared.odds.Odds.{Odds};
ghost use Rattle.shm_simulate.specs.declared.spread.Spread.{Spread};

use crate::add_to_spreads::add_values;
use crate::measure::Measure;
use crate::measures_of_workload::measures;
use crate::odds::Odds;
use crate::outcome::{Outcome, add};
use crate::partial_run::PartialRun;
use crate::play_one_run::play;
use crate::spread::Spread;
use crate::tally_text::{push_tally, seed_of};
use shm_lines::{Workload, WorkloadAccess};
use shm_place::{PAGES, Sites};
use std::alloc::{AllocError, Global};

/// What came of many runs of a workload.
#[derive(Drop)]
pub struct Tally {
    /// The seed of the first run. Each further run's is greater by 1, and 0 comes after the greatest.
    pub seed: u32,
    /// How many runs there were.
    pub runs: u32,
    /// Their outcomes, in the order in which they first came.
    pub outcomes: Vec<Outcome>,
    /// How each measure is spread over the runs.
    pub spreads: Vec<Spread>,
}

impl Tally {
    /// Appends its text to a text.
    pub fn tell(&self, out: &mut String) -> Result<(), AllocError>
        ensures { OnOk result (string_bytes out.new ≡ string_bytes out.old ++ tally_text self.now.seed self.now.runs self.now.outcomes.items self.now.spreads.items) }
    {
        push_tally(
            out,
            self.seed,
            self.runs,
            self.outcomes.as_slice(),
            self.spreads.as_slice(),
        )
    }
}

/// Runs the workload so many times over this many sites, each run in a world of its own. What happens in a run is drawn from its seed: the
/// first run has this one, and each further one has the next.
pub fn simulate(
    alloc: Global,
    sites: Sites,
    workload: &Workload,
    odds: Odds,
    seed: u32,
    runs: u32,
) -> Result<Tally, AllocError>
    requires from { 1 ≤ workload.now.pages }
    requires to { workload.now.pages ≤ PAGES }
    ensures { IfOk result (IsTally sites workload.now.pages workload.now.accesses.items odds seed runs) }
{
    let pages = workload.pages;
    let accesses = workload.accesses.as_slice();
    let mut tally = Tally {
        seed,
        runs,
        outcomes: Vec::new(alloc),
        spreads: begin(alloc, pages, accesses)?,
    };
    run_all(alloc, sites, pages, accesses, odds, &mut tally)?;
    Ok(tally)
}

/// The spreads of all that is measured, over no runs.
fn begin(alloc: Global, pages: u32, accesses: &[WorkloadAccess]) -> Result<Vec<Spread>, AllocError>
    ensures none { IfOk result (λ spreads. AreSpreads (λ _. []) spreads.items) }
    ensures measures { IfOk result (λ spreads. map (λ (spread : Spread). spread.measure) spreads.items ≡ measures_of pages accesses.now) }
{
    let all = measures(alloc, pages, accesses)?;
    spreads_of(alloc, all.as_slice())
}

/// A spread over no runs for each of these measures.
fn spreads_of(alloc: Global, all: &[Measure]) -> Result<Vec<Spread>, AllocError>
    ensures none { IfOk result (λ spreads. AreSpreads (λ _. []) spreads.items) }
    ensures measures { IfOk result (λ spreads. map (λ (spread : Spread). spread.measure) spreads.items ≡ all.now) }
{
    let mut spreads = Vec::new(alloc);
    'measures: for measure in all {
        spreads.push(Spread::new(alloc, *measure))?;
    }
    Ok(spreads)
}

/// Makes all runs.
fn run_all(
    alloc: Global,
    sites: Sites,
    pages: u32,
    accesses: &[WorkloadAccess],
    odds: Odds,
    tally: &mut Tally,
) -> Result<(), AllocError>
    requires from { 1 ≤ pages }
    requires to { pages ≤ PAGES }
    ensures told { Tells (model.Preset sites pages) accesses.now odds [] tally.old.outcomes.items tally.old.spreads.items
        → OnOk result (ToldOf (model.Preset sites pages) accesses.now odds tally.old.runs tally.new.outcomes.items tally.new.spreads.items) }
    ensures measures { map (λ (spread : Spread). spread.measure) tally.new.spreads.items ≡ map (λ (spread : Spread). spread.measure) tally.old.spreads.items }
    ensures runs { tally.new.runs ≡ tally.old.runs }
    ensures seed { tally.new.seed ≡ tally.old.seed }
{
    let runs = tally.runs;
    let seed = tally.seed;
    'runs: for run in 0..runs {
        let partial = play(alloc, sites, pages, accesses, odds, seed_of(seed, run))?;
        add_run(alloc, tally, run, partial)?;
    }
    Ok(())
}

/// Adds what came of the run of this number.
fn add_run(
    alloc: Global,
    tally: &mut Tally,
    run: u32,
    partial: PartialRun,
) -> Result<(), AllocError>
    requires { run < 4294967295 }
    ensures told { (o : model.Opening) (accesses : List WorkloadAccess) (odds : Odds) (schedules : List (List Event))
        → Follows o accesses odds partial → Ended partial.lines.items partial.events.items → length schedules ≡ run
        → Tells o accesses odds schedules tally.old.outcomes.items tally.old.spreads.items
        → OnOk result (Tells o accesses odds (schedules ++ partial.events.items ∷ []) tally.new.outcomes.items tally.new.spreads.items) }
    ensures measures { map (λ (spread : Spread). spread.measure) tally.new.spreads.items ≡ map (λ (spread : Spread). spread.measure) tally.old.spreads.items }
    ensures runs { tally.new.runs ≡ tally.old.runs }
    ensures seed { tally.new.seed ≡ tally.old.seed }
{
    let PartialRun {
        world: _,
        events,
        lines,
        messages,
    } = partial;
    add_values(
        &mut tally.spreads,
        lines.as_slice(),
        messages.as_slice(),
        events.as_slice(),
    )?;
    add(alloc, &mut tally.outcomes, run, lines.as_slice(), events)
}
