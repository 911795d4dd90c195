//! Reads the options of a simulation.
ghost use Rattle.std.specs.Prelude.{◌≡◌, Some, codes, IfSome};
ghost use Rattle.clap.specs.Words.{found_of, rows_of};
ghost use Rattle.shm_command.specs.Words.{percent_at, HasOdds, IsAsked};

use crate::args::simulation_words::Simulation;
use crate::args::task::Task;
use crate::args::task_from_options::number;
use clap::ArgMatches;
use shm_place::Sites;
use shm_simulate::Odds;

/// A simulation's options.
pub(crate) fn simulate_task<'a>(found: &ArgMatches<'a>) -> Option<Task<'a>>
    ensures { IfSome result (λ task. IsAsked (codes "simulate") (rows_of (found_of found.now)) task) }
{
    let sites = Sites::new(number(found, "sites")?).ok()?;
    let seed = number(found, "seed")?;
    let runs = number(found, "runs")?;
    let odds = odds(found)?;
    let keep = found.get_str("keep");
    Some(Task::Simulate(Simulation {
        sites,
        seed,
        runs,
        odds,
        keep,
    }))
}

/// How often things are to go wrong: never, where nothing is written of it.
fn odds(found: &ArgMatches<'_>) -> Option<Odds>
    ensures { IfSome result (HasOdds (rows_of (found_of found.now))) }
{
    let lose = percent(found, "lose")?;
    let repeat = percent(found, "repeat")?;
    let restart = percent(found, "restart")?;
    Some(Odds {
        lose,
        repeat,
        restart,
    })
}

/// The number that is written for an option, or 0 where none is.
fn percent(found: &ArgMatches<'_>, option: &str) -> Option<u32>
    ensures { IfSome result (λ percent. percent_at option.now (rows_of (found_of found.now)) ≡ Some percent) }
{
    match found.get_raw(option) {
        Some(_) => number(found, option),
        None => Some(0),
    }
}
