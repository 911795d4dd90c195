ghost use Rattle.std.specs.Prelude.{◌≡◌, map, true, IfOk, IfSome, IsSomeAnd};
ghost use Rattle.clap.specs.Words.{FailsBy, found_of, rows_of, subcommand_of};
ghost use Rattle.shm_command.specs.Commands.{app};
ghost use Rattle.shm_command.specs.Words.{fault_in, is_among, IsAsked};

use crate::args::check_site::look_for_site;
use crate::args::command_definitions::command;
use crate::args::simulation_options::simulate_task;
use crate::args::task::Task;
use crate::args::task_from_options::{
    audit_task, draw_task, journal_task, replay_task, run_task, shorten_task, site_task,
};
use crate::args::word_checks::{has_plain_numbers, short_error, spelling_error};
use clap::{ArgMatches, Error};
use std::alloc::{AllocError, Global};
use std::convert::AsStr;

/// Reads the words, the first of which is the program's name. A request for help is an `Err` too, and its text is the help.
pub fn parse_words<'a, S: AsStr>(alloc: Global, words: &'a [S]) -> Result<Task<'a>, Error>
    ensures fault { FailsBy (fault_in (map S.text words.now)) result }
    ensures task { IfOk result (λ task. IsSomeAnd (subcommand_of app (map S.text words.now)) (λ named. IsAsked named.0 named.1 task)) }
    ensures among { IfOk result (λ task. is_among task ≡ true) }
{
    let matches = match command(alloc)?.try_get_matches_from(words) {
        Ok(matches) => matches,
        Err(error) => return Err(short_error(alloc, words, error)),
    };
    if !has_plain_numbers(&matches) {
        return Err(spelling_error(alloc, &matches)?);
    }
    match matches.subcommand() {
        Some((name, found)) => match task_of(alloc, name, found) {
            Some(task) => match look_for_site(alloc, found, &task) {
                Ok(()) => Ok(task),
                Err(error) => Err(error),
            },
            None => Err(Error::from(AllocError)),
        },
        None => Err(Error::from(AllocError)),
    }
}

/// The task of the words behind a subcommand's name. Words that were taken have all options that are required, in range; so `None` means
/// that memory for it is refused.
fn task_of<'a>(alloc: Global, name: &str, found: &ArgMatches<'a>) -> Option<Task<'a>>
    ensures { IfSome result (IsAsked name.now (rows_of (found_of found.now))) }
{
    if name == "replay" {
        return Some(replay_task(found));
    }
    if name == "prompt" {
        return Some(Task::Prompt);
    }
    if name == "run" {
        return run_task(found);
    }
    if name == "simulate" {
        return simulate_task(found);
    }
    if name == "draw" {
        return draw_task(found);
    }
    if name == "site" {
        return site_task(found);
    }
    if name == "audit" {
        return audit_task(alloc, found);
    }
    if name == "journal" {
        return journal_task(found);
    }
    if name == "shorten" {
        return shorten_task(found);
    }
    None
}
