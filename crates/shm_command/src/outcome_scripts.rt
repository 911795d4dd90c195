//! The scripts of a simulation's outcomes, as files.
ghost use Rattle.std.specs.Prelude.{◌≡◌, ◌≤◌, IfErr, IfOk, OnOk, string_bytes};
ghost use Rattle.shm_debug.specs.Standing.{standing, with_event};
ghost use Rattle.shm_model.specs.World as model;
ghost use Rattle.shm_prompt.specs.Saved.{Replays};
ghost use Rattle.shm_prompt.specs.Saves.{Adds, Whole};
ghost use Rattle.shm_command.specs.Kept.{kept, name_of_outcome, run_of_outcome, script_of_outcome, AddsAll};
ghost use Rattle.shm_command.specs.Simulated.{IsUnwritten};

use crate::save_run_logs::{Unlogged, open_file};
use shm_debug::Session;
use shm_model::{Event, Opening};
use shm_place::{PAGES, Sites};
use shm_prompt::{SaveFile, SaveRefusal, saved_script};
use shm_report::ReportFault;
use shm_simulate::Outcome;
use std::alloc::{AllocError, Global};
use std::rt::Files;

/// Opens the file of the first outcome's script in this folder, as each simulation has one, and makes it where it isn't there; what the
/// file has stays.
pub fn open_first<R: AllocGlobal + Files>(rt: &R, folder: &str) -> Result<(), Unlogged> {
    let Ok(name) = name_of(rt.alloc(), folder, 1) else {
        return Err(Unlogged::OutOfMemory);
    };
    open_file(rt, name)
}

/// Saves the script of each outcome in this folder, which exists: `outcome-1.shm`, and so on. The runs were over this many sites, and
/// segment 0 had so many pages. At the first that can't be saved it ends.
pub fn save_outcome_scripts<F: SaveFile>(
    alloc: Global,
    folder: &str,
    sites: Sites,
    pages: u32,
    outcomes: &[Outcome],
    files: &mut F,
) -> Result<(), ReportFault>
    requires from { 1 ≤ pages }
    requires to { pages ≤ PAGES }
    ensures saved { OnOk result (AddsAll (F.saves files.old) (F.saves files.new) (kept folder.now sites pages 1 outcomes.now)) }
    ensures fault { IfErr result IsUnwritten }
{
    'outcomes: for (place, outcome) in outcomes.iter().enumerate() {
        let number = place + 1;
        match save_outcome(alloc, folder, sites, pages, number, outcome, files) {
            Ok(()) => {}
            Err(fault) => return Err(fault),
        }
    }
    Ok(())
}

fn save_outcome<F: SaveFile>(
    alloc: Global,
    folder: &str,
    sites: Sites,
    pages: u32,
    number: usize,
    outcome: &Outcome,
    files: &mut F,
) -> Result<(), ReportFault>
    requires from { 1 ≤ pages }
    requires to { pages ≤ PAGES }
    ensures saved { OnOk result (Adds (F.saves files.old) (F.saves files.new)
        (Whole (name_of_outcome folder.now number) (script_of_outcome sites pages outcome.now))) }
    ensures fault { IfErr result IsUnwritten }
{
    let Ok(name) = name_of(alloc, folder, number) else {
        return Err(ReportFault::OutOfMemory);
    };
    let script = match outcome_script(alloc, sites, pages, outcome) {
        Ok(script) => script,
        Err(refusal) => return Err(fault_of(refusal)),
    };
    match files.save(name.as_str(), script.as_slice()) {
        Ok(()) => Ok(()),
        Err(_) => Err(ReportFault::WriteFault),
    }
}

/// The file of the outcome of this number. A folder without a name is the one where the program runs.
fn name_of(alloc: Global, folder: &str, number: usize) -> Result<String, AllocError>
    ensures { IfOk result (λ name. string_bytes name ≡ name_of_outcome folder.now number) }
{
    if folder.is_empty() {
        return format!(in alloc; "outcome-{number}.shm");
    }
    format!(in alloc; "{folder}/outcome-{number}.shm")
}

/// The script of the run that is kept of an outcome. A replay of it makes exactly the run's events.
fn outcome_script(
    alloc: Global,
    sites: Sites,
    pages: u32,
    outcome: &Outcome,
) -> Result<Vec<u8>, SaveRefusal>
    requires from { 1 ≤ pages }
    requires to { pages ≤ PAGES }
    ensures text { IfOk result (λ bytes. bytes.items ≡ script_of_outcome sites pages outcome.now) }
    ensures replays { IfOk result (λ bytes. Replays bytes.items (run_of_outcome sites pages outcome.now)) }
{
    match play_again(alloc, sites, pages, outcome.events.as_slice()) {
        Ok(session) => saved_script(alloc, &session),
        Err(_) => Err(SaveRefusal::OutOfMemory),
    }
}

/// A session in which these events happened.
fn play_again(
    alloc: Global,
    sites: Sites,
    pages: u32,
    events: &[Event],
) -> Result<Session, AllocError>
    requires from { 1 ≤ pages }
    requires to { pages ≤ PAGES }
    ensures { IfOk result (λ session. session ≡ standing (model.Preset sites pages) events.now) }
{
    let mut session = Session::new(alloc, Opening::preset(sites, pages))?;
    'events: for event in events {
        happen(&mut session, *event)?;
    }
    Ok(session)
}

/// Makes one more event.
fn happen(session: &mut Session, event: Event) -> Result<(), AllocError>
    ensures { OnOk result (session.new ≡ with_event session.old event) }
{
    match session.apply(event) {
        Ok(_) => Ok(()),
        Err(_) => Err(AllocError),
    }
}

/// What a refused script is told as. The events of a run are fewer than a script has lines, and each has a line.
fn fault_of(refusal: SaveRefusal) -> ReportFault
    ensures { IsUnwritten result }
{
    match refusal {
        SaveRefusal::OutOfMemory => ReportFault::OutOfMemory,
        SaveRefusal::TooManyLines | SaveRefusal::NoLine => ReportFault::WriteFault,
    }
}
