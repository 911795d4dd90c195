//! Checks that `--me` is below `--sites`, and that `--new`, `--shorten-at` and `--forget` have a journal's file.
ghost use Rattle.std.specs.Prelude.{◌≡◌, true, IfOk, OnOk};
ghost use Rattle.clap.specs.Kinds.{FailsBy};
ghost use Rattle.clap.specs.Words.{found_of, kind_of, rows_of};
ghost use Rattle.clap.specs.declared.error.kind.ErrorKind.TheVariants.{MissingRequiredArgument, ValueValidation};
ghost use Rattle.shm_command.specs.Words as spec;

use crate::args::command_definitions::command;
use crate::args::task::Task;
use clap::error::ErrorKind;
use clap::{ArgMatches, Error};
use std::alloc::{AllocError, Global};

/// Refuses the task of a site whose number isn't below the number of sites, or that is to begin a journal or to make one shorter without a
/// file. The task is what is written for the options that were found.
pub fn look_for_site(alloc: Global, found: &ArgMatches<'_>, task: &Task<'_>) -> Result<(), Error>
    ensures fault { FailsBy (spec.task_fault (rows_of (found_of found.now)) task.now) result }
    ensures among { OnOk result (spec.is_among task.now ≡ true) }
{
    if !is_among(task) {
        return Err(missing_site_error(alloc, task)?);
    }
    if !has_file(found, task) {
        return Err(missing_file_error(alloc, task)?);
    }
    Ok(())
}

fn is_among(task: &Task<'_>) -> bool
    ensures { result ≡ spec.is_among task.now }
{
    match task {
        Task::Site {
            sites,
            me,
            pages: _,
            journal: _,
            begins: _,
            seal: _,
            shortening: _,
        } => me.0 < sites.count(),
        _ => true,
    }
}

fn has_file(found: &ArgMatches<'_>, task: &Task<'_>) -> bool
    ensures { result ≡ spec.has_file (rows_of (found_of found.now)) task.now }
{
    match task {
        Task::Site {
            sites: _,
            me: _,
            pages: _,
            journal,
            begins,
            seal: _,
            shortening,
        } => !needs_file(found, *begins, shortening.forgets) || journal.is_some(),
        _ => true,
    }
}

/// Checks that something is said of a journal: it is to be begun, it is said when it is made shorter, or whole ones go.
fn needs_file(found: &ArgMatches<'_>, begins: bool, forgets: bool) -> bool
    ensures { result ≡ spec.needs_file (rows_of (found_of found.now)) begins forgets }
{
    begins || forgets || is_given(found, "shorten-at")
}

/// Checks that something is written for an option.
fn is_given(found: &ArgMatches<'_>, option: &str) -> bool
    ensures { result ≡ spec.is_given_at option.now (rows_of (found_of found.now)) }
{
    match found.get_raw(option) {
        Some(_) => true,
        None => false,
    }
}

/// The error for what is said of a journal without its file.
fn missing_file_error(alloc: Global, task: &Task<'_>) -> Result<Error, AllocError>
    ensures { IfOk result (λ error. kind_of error ≡ MissingRequiredArgument) }
{
    let message = missing_file_text(task);
    command(alloc)?.error(ErrorKind::MissingRequiredArgument, message)
}

/// What the first of the options is for that are written and need a journal's file.
fn missing_file_text(task: &Task<'_>) -> &'static str {
    let (begins, forgets) = flags_of(task);
    if begins {
        return "'--new' begins a journal: it needs '--journal <FILE>'";
    }
    if forgets {
        return "'--forget' lets whole journals go: it needs '--journal <FILE>'";
    }
    "'--shorten-at' makes a journal shorter: it needs '--journal <FILE>'"
}

/// Whether the site's journal is to be begun, and whether whole ones go.
fn flags_of(task: &Task<'_>) -> (bool, bool) {
    match task {
        Task::Site {
            sites: _,
            me: _,
            pages: _,
            journal: _,
            begins,
            seal: _,
            shortening,
        } => (*begins, shortening.forgets),
        _ => (false, false),
    }
}

/// The error for a site that isn't there.
fn missing_site_error(alloc: Global, task: &Task<'_>) -> Result<Error, AllocError>
    ensures { IfOk result (λ error. kind_of error ≡ ValueValidation) }
{
    let (me, count) = numbers_of(task);
    let message = format!(in alloc;
        "invalid value '{me}' for '--me': sites are numbered from 0, and there are {count}"
    )?;
    command(alloc)?.error(ErrorKind::ValueValidation, message.as_str())
}

/// The site's number, and how many sites there are.
fn numbers_of(task: &Task<'_>) -> (u32, u32) {
    match task {
        Task::Site {
            sites,
            me,
            pages: _,
            journal: _,
            begins: _,
            seal: _,
            shortening: _,
        } => (me.0, sites.count()),
        _ => (0, 0),
    }
}
