//! The commands, with their options.
ghost use Rattle.std.specs.Prelude.{◌≡◌, false, IfOk};
ghost use Rattle.clap.specs.Words.{app_of, rule_of};
ghost use Rattle.clap.specs.declared.builder.command.Command.TheViews.{out-Command};
ghost use Rattle.shm_command.specs.Commands as spec;

use crate::args::help;
use clap::builder::ValueParser;
use clap::{Arg, ArgAction, Command, value_parser};
use std::alloc::{AllocError, Global};

/// The names of a page's two numbers in help.
const PAGE: [&str; 2] = ["SEG", "INDEX"];

/// The program with all its subcommands.
pub(crate) fn command<'a>(alloc: Global) -> Result<Command<'a>, AllocError>
    ensures app { IfOk result (λ c. app_of c ≡ spec.app) }
{
    bare_command(alloc)
        .subcommand(replay_command(alloc)?)?
        .subcommand(run_command(alloc)?)?
        .subcommand(simulate_command(alloc)?)?
        .subcommand(prompt_command(alloc))?
        .subcommand(draw_command(alloc)?)?
        .subcommand(site_command(alloc)?)?
        .subcommand(audit_command(alloc)?)?
        .subcommand(journal_command(alloc)?)?
        .subcommand(shorten_command(alloc)?)
}

/// The program without its subcommands.
fn bare_command<'a>(alloc: Global) -> Command<'a>
    ensures app { app_of result ≡ spec.bare_app }
{
    Command::new(alloc, "shmdbg")
        .about("Shared memory segments over sites that have no memory in common")
        .version(help::VERSION)
        .after_help(help::PROGRAM)
        .subcommand_required(true)
}

fn replay_command<'a>(alloc: Global) -> Result<Command<'a>, AllocError>
    ensures app { IfOk result (λ c. app_of c ≡ spec.replay_app) }
    ensures local { IfOk result (λ c. (out-Command c).has_globals ≡ false) }
{
    Command::new(alloc, "replay")
        .about("Replay a script, of a file or of standard input")
        .after_help(help::REPLAY)
        .arg(file_arg(alloc))
}

fn run_command<'a>(alloc: Global) -> Result<Command<'a>, AllocError>
    ensures app { IfOk result (λ c. app_of c ≡ spec.run_app) }
    ensures local { IfOk result (λ c. (out-Command c).has_globals ≡ false) }
{
    Command::new(alloc, "run")
        .about("Run the workload on standard input on sites in threads, and audit it")
        .after_help(help::RUN)
        .arg(sites_arg(alloc))?
        .arg(seed_arg(alloc))?
        .arg(summary_arg(alloc))?
        .arg(log_arg(alloc))
}

fn simulate_command<'a>(alloc: Global) -> Result<Command<'a>, AllocError>
    ensures app { IfOk result (λ c. app_of c ≡ spec.simulate_app) }
    ensures local { IfOk result (λ c. (out-Command c).has_globals ≡ false) }
{
    Command::new(alloc, "simulate")
        .about("Run the workload on standard input over and over, and count its outcomes")
        .after_help(help::SIMULATE)
        .arg(sites_arg(alloc))?
        .arg(first_seed_arg(alloc))?
        .arg(runs_arg(alloc))?
        .arg(lose_arg(alloc))?
        .arg(repeat_arg(alloc))?
        .arg(restart_arg(alloc))?
        .arg(keep_arg(alloc))
}

fn prompt_command<'a>(alloc: Global) -> Command<'a>
    ensures app { app_of result ≡ spec.prompt_app }
    ensures local { (out-Command result).has_globals ≡ false }
{
    Command::new(alloc, "prompt")
        .about("Answer each line as it is typed")
        .after_help(help::PROMPT)
}

fn draw_command<'a>(alloc: Global) -> Result<Command<'a>, AllocError>
    ensures app { IfOk result (λ c. app_of c ≡ spec.draw_app) }
    ensures local { IfOk result (λ c. (out-Command c).has_globals ≡ false) }
{
    Command::new(alloc, "draw")
        .about("Draw the run that a script leaves, of a file or of standard input")
        .after_help(help::DRAW)
        .arg(page_arg(alloc))?
        .arg(steps_arg(alloc))?
        .arg(notes_arg(alloc))?
        .arg(file_arg(alloc))
}

fn site_command<'a>(alloc: Global) -> Result<Command<'a>, AllocError>
    ensures app { IfOk result (λ c. app_of c ≡ spec.site_app) }
    ensures local { IfOk result (λ c. (out-Command c).has_globals ≡ false) }
{
    bare_site_command(alloc)
        .arg(sites_arg(alloc))?
        .arg(me_arg(alloc))?
        .arg(preset_arg(alloc))?
        .arg(journal_arg(alloc))?
        .arg(new_arg(alloc))?
        .arg(shorten_at_arg(alloc))?
        .arg(forget_arg(alloc))?
        .arg(cluster_arg(alloc))?
        .arg(key_arg(alloc))
}

/// Without its options.
fn bare_site_command<'a>(alloc: Global) -> Command<'a>
    ensures app { app_of result ≡ spec.bare_site_app }
    ensures local { (out-Command result).has_globals ≡ false }
{
    Command::new(alloc, "site")
        .about("Run one site of a cluster on the lines of standard input")
        .after_help(help::SITE)
}

fn audit_command<'a>(alloc: Global) -> Result<Command<'a>, AllocError>
    ensures app { IfOk result (λ c. app_of c ≡ spec.audit_app) }
    ensures local { IfOk result (λ c. (out-Command c).has_globals ≡ false) }
{
    Command::new(alloc, "audit")
        .about("Audit the journals of all sites of a cluster")
        .after_help(help::AUDIT)
        .arg(sites_arg(alloc))?
        .arg(journals_arg(alloc))
}

fn journal_command<'a>(alloc: Global) -> Result<Command<'a>, AllocError>
    ensures app { IfOk result (λ c. app_of c ≡ spec.journal_app) }
    ensures local { IfOk result (λ c. (out-Command c).has_globals ≡ false) }
{
    Command::new(alloc, "journal")
        .about("Tell what a site's journal has")
        .after_help(help::JOURNAL)
        .arg(journal_file_arg(alloc))
}

fn shorten_command<'a>(alloc: Global) -> Result<Command<'a>, AllocError>
    ensures app { IfOk result (λ c. app_of c ≡ spec.shorten_app) }
    ensures local { IfOk result (λ c. (out-Command c).has_globals ≡ false) }
{
    Command::new(alloc, "shorten")
        .about("Make a site's journal shorter: it goes on from the site's state")
        .after_help(help::SHORTEN)
        .arg(journal_file_arg(alloc))
}

fn sites_arg<'a>(alloc: Global) -> Arg<'a>
    ensures rule { rule_of result ≡ spec.sites_rule }
    ensures local { result.global ≡ false }
{
    Arg::new(alloc, "sites")
        .long("sites")
        .value_name("N")
        .help("How many sites, 1 to 16")
        .required(true)
        .action(ArgAction::Set)
        .value_parser(value_parser!(u32).range(1..=16))
}

fn me_arg<'a>(alloc: Global) -> Arg<'a>
    ensures rule { rule_of result ≡ spec.me_rule }
    ensures local { result.global ≡ false }
{
    Arg::new(alloc, "me")
        .long("me")
        .value_name("K")
        .help("Which site this is, 0 to N-1")
        .required(true)
        .action(ArgAction::Set)
        .value_parser(value_parser!(u32).range(0..=15))
}

fn preset_arg<'a>(alloc: Global) -> Arg<'a>
    ensures rule { rule_of result ≡ spec.preset_rule }
    ensures local { result.global ≡ false }
{
    Arg::new(alloc, "preset")
        .long("preset")
        .value_name("P")
        .help("How many pages segment 0 has, 1 to 256")
        .required(true)
        .action(ArgAction::Set)
        .value_parser(value_parser!(u32).range(1..=256))
}

fn seed_arg<'a>(alloc: Global) -> Arg<'a>
    ensures rule { rule_of result ≡ spec.seed_rule }
    ensures local { result.global ≡ false }
{
    Arg::new(alloc, "seed")
        .long("seed")
        .value_name("S")
        .help("The seed of the losses and repeats")
        .required(true)
        .action(ArgAction::Set)
        .value_parser(value_parser!(u32))
}

fn first_seed_arg<'a>(alloc: Global) -> Arg<'a>
    ensures rule { rule_of result ≡ spec.seed_rule }
    ensures local { result.global ≡ false }
{
    Arg::new(alloc, "seed")
        .long("seed")
        .value_name("S")
        .help("The seed of the first run; each further run has the next")
        .required(true)
        .action(ArgAction::Set)
        .value_parser(value_parser!(u32))
}

fn runs_arg<'a>(alloc: Global) -> Arg<'a>
    ensures rule { rule_of result ≡ spec.runs_rule }
    ensures local { result.global ≡ false }
{
    Arg::new(alloc, "runs")
        .long("runs")
        .value_name("M")
        .help("How many runs, from 1 on")
        .required(true)
        .action(ArgAction::Set)
        .value_parser(value_parser!(u32).range(1..=4294967295))
}

fn lose_arg<'a>(alloc: Global) -> Arg<'a>
    ensures rule { rule_of result ≡ spec.lose_rule }
    ensures local { result.global ≡ false }
{
    Arg::new(alloc, "lose")
        .long("lose")
        .value_name("P")
        .help("Of 100 messages that would arrive, so many are lost")
        .action(ArgAction::Set)
        .value_parser(value_parser!(u32).range(0..=100))
}

fn repeat_arg<'a>(alloc: Global) -> Arg<'a>
    ensures rule { rule_of result ≡ spec.repeat_rule }
    ensures local { result.global ≡ false }
{
    Arg::new(alloc, "repeat")
        .long("repeat")
        .value_name("P")
        .help("Of 100 messages that arrive, so many do once more")
        .action(ArgAction::Set)
        .value_parser(value_parser!(u32).range(0..=100))
}

fn restart_arg<'a>(alloc: Global) -> Arg<'a>
    ensures rule { rule_of result ≡ spec.restart_rule }
    ensures local { result.global ≡ false }
{
    Arg::new(alloc, "restart")
        .long("restart")
        .value_name("P")
        .help("Of 100 events so many are restarts of a site")
        .action(ArgAction::Set)
        .value_parser(value_parser!(u32).range(0..=100))
}

fn keep_arg<'a>(alloc: Global) -> Arg<'a>
    ensures rule { rule_of result ≡ spec.keep_rule }
    ensures local { result.global ≡ false }
{
    Arg::new(alloc, "keep")
        .long("keep")
        .value_name("DIR")
        .help("Leave a script of each outcome in this folder, which exists")
        .action(ArgAction::Set)
}

fn page_arg<'a>(alloc: Global) -> Arg<'a>
    ensures rule { rule_of result ≡ spec.page_rule }
    ensures local { result.global ≡ false }
{
    Arg::new(alloc, "page")
        .long("page")
        .value_names(&PAGE)
        .help("The page to show, by its segment and its index")
        .action(ArgAction::Set)
        .value_parser(value_parser!(u32))
}

fn steps_arg<'a>(alloc: Global) -> Arg<'a>
    ensures rule { rule_of result ≡ spec.steps_rule }
    ensures local { result.global ≡ false }
{
    Arg::new(alloc, "steps")
        .long("steps")
        .help("Write a page for a browser, with the picture and each step's tables")
        .action(ArgAction::SetTrue)
}

fn notes_arg<'a>(alloc: Global) -> Arg<'a>
    ensures rule { rule_of result ≡ spec.notes_rule }
    ensures local { result.global ≡ false }
{
    Arg::new(alloc, "notes")
        .long("notes")
        .value_name("FILE")
        .help("Add the captions that this file has for rows")
        .action(ArgAction::Set)
}

fn file_arg<'a>(alloc: Global) -> Arg<'a>
    ensures rule { rule_of result ≡ spec.file_rule }
    ensures local { result.global ≡ false }
{
    Arg::new(alloc, "file")
        .value_name("FILE")
        .help("The file of the script; without it standard input is read")
        .action(ArgAction::Set)
}

fn summary_arg<'a>(alloc: Global) -> Arg<'a>
    ensures rule { rule_of result ≡ spec.summary_rule }
    ensures local { result.global ≡ false }
{
    Arg::new(alloc, "summary")
        .long("summary")
        .help("Add how much was done, and how long it took")
        .action(ArgAction::SetTrue)
}

fn log_arg<'a>(alloc: Global) -> Arg<'a>
    ensures rule { rule_of result ≡ spec.log_rule }
    ensures local { result.global ≡ false }
{
    Arg::new(alloc, "log")
        .long("log")
        .value_name("DIR")
        .help("Leave each site's log in this folder, which exists")
        .action(ArgAction::Set)
}

fn journal_arg<'a>(alloc: Global) -> Arg<'a>
    ensures rule { rule_of result ≡ spec.journal_rule }
    ensures local { result.global ≡ false }
{
    Arg::new(alloc, "journal")
        .long("journal")
        .value_name("FILE")
        .help("Keep the site's journal in this file, and go on from it")
        .action(ArgAction::Set)
}

fn journal_file_arg<'a>(alloc: Global) -> Arg<'a>
    ensures rule { rule_of result ≡ spec.journal_file_rule }
    ensures local { result.global ≡ false }
{
    Arg::new(alloc, "file")
        .value_name("FILE")
        .help("The journal")
        .required(true)
        .action(ArgAction::Set)
}

fn new_arg<'a>(alloc: Global) -> Arg<'a>
    ensures rule { rule_of result ≡ spec.new_journal_rule }
    ensures local { result.global ≡ false }
{
    Arg::new(alloc, "new")
        .long("new")
        .help("Begin the journal, which doesn't exist yet")
        .action(ArgAction::SetTrue)
}

fn shorten_at_arg<'a>(alloc: Global) -> Arg<'a>
    ensures rule { rule_of result ≡ spec.shorten_at_rule }
    ensures local { result.global ≡ false }
{
    Arg::new(alloc, "shorten-at")
        .long("shorten-at")
        .value_name("BYTES")
        .help("Make the journal shorter when it has so many bytes, 0 for never")
        .action(ArgAction::Set)
        .value_parser(ValueParser::signed(0, i64::MAX))
}

fn forget_arg<'a>(alloc: Global) -> Arg<'a>
    ensures rule { rule_of result ≡ spec.forget_rule }
    ensures local { result.global ≡ false }
{
    Arg::new(alloc, "forget")
        .long("forget")
        .help("Keep no whole journal when it is made shorter")
        .action(ArgAction::SetTrue)
}

fn cluster_arg<'a>(alloc: Global) -> Arg<'a>
    ensures rule { rule_of result ≡ spec.cluster_rule }
    ensures local { result.global ≡ false }
{
    Arg::new(alloc, "cluster")
        .long("cluster")
        .value_name("NAME")
        .help("The cluster's name, which stands behind each of its lines")
        .action(ArgAction::Set)
}

fn key_arg<'a>(alloc: Global) -> Arg<'a>
    ensures rule { rule_of result ≡ spec.key_rule }
    ensures local { result.global ≡ false }
{
    Arg::new(alloc, "key")
        .long("key")
        .value_name("FILE")
        .help("The file of the cluster's key, under which each line has a digest")
        .action(ArgAction::Set)
}

fn journals_arg<'a>(alloc: Global) -> Arg<'a>
    ensures rule { rule_of result ≡ spec.journals_rule }
    ensures local { result.global ≡ false }
{
    Arg::new(alloc, "journals")
        .value_name("JOURNAL")
        .help("The journals, in the order of the sites")
        .required(true)
        .action(ArgAction::Set)
        .num_args(1..=16)
}
