//! Reads a subcommand's options. Words that clap took have all that are required, in range.
ghost use Rattle.std.specs.Prelude.{◌≡◌, Some, codes, map, IfSome};
ghost use Rattle.clap.specs.Words.{all_of, found_of, rows_of};
ghost use Rattle.shm_command.specs.Words.{is_set_at, number_at, number_of, number_or, page_named, HasShortening, IsAsked};

use crate::args::seal_words::SealWords;
use crate::args::shortening_words::Shortening;
use crate::args::task::Task;
use crate::args::word_checks::is_plain_at;
use clap::ArgMatches;
use shm_place::{PAGES, PageId, SegId, SiteId, Sites};
use std::alloc::Global;

/// 64 MiB: so many bytes a running site's journal has before it is made shorter, where nothing is said of it.
const SHORTEN_AT: u64 = 67_108_864;

/// A run's options.
pub(crate) fn run_task<'a>(found: &ArgMatches<'a>) -> Option<Task<'a>>
    ensures { IfSome result (λ task. IsAsked (codes "run") (rows_of (found_of found.now)) task) }
{
    let sites = Sites::new(number(found, "sites")?).ok()?;
    let seed = number(found, "seed")?;
    let summary = is_set(found, "summary");
    let log = found.get_str("log");
    Some(Task::Run {
        sites,
        seed,
        summary,
        log,
    })
}

/// Checks that an option without a value is there.
fn is_set(found: &ArgMatches<'_>, option: &str) -> bool
    ensures { result ≡ is_set_at option.now (rows_of (found_of found.now)) }
{
    match found.get_str(option) {
        Some(text) => text == "true",
        None => false,
    }
}

/// The number that is written for an option.
pub(crate) fn number(found: &ArgMatches<'_>, option: &str) -> Option<u32>
    ensures { IfSome result (λ number. number_at option.now (rows_of (found_of found.now)) ≡ Some number) }
{
    if is_plain_at(found, option) {
        found.get_one(option)
    } else {
        None
    }
}

/// The number of up to 64 bits that is written for an option.
fn long_number(found: &ArgMatches<'_>, option: &str) -> Option<u64>
    ensures { IfSome result (λ number. number_at option.now (rows_of (found_of found.now)) ≡ Some number) }
{
    if is_plain_at(found, option) {
        found.get_one(option)
    } else {
        None
    }
}

/// The same, or this number where nothing is written.
fn long_number_or(found: &ArgMatches<'_>, option: &str, other: u64) -> Option<u64>
    ensures { IfSome result (λ number. number_or other option.now (rows_of (found_of found.now)) ≡ Some number) }
{
    match found.get_raw(option) {
        Some(_) => long_number(found, option),
        None => Some(other),
    }
}

/// The task of `replay`.
pub(crate) fn replay_task<'a>(found: &ArgMatches<'a>) -> Task<'a>
    ensures { IsAsked (codes "replay") (rows_of (found_of found.now)) result }
{
    let file = found.get_str("file");
    Task::Replay { file }
}

/// The task of `draw`.
pub(crate) fn draw_task<'a>(found: &ArgMatches<'a>) -> Option<Task<'a>>
    ensures { IfSome result (λ task. IsAsked (codes "draw") (rows_of (found_of found.now)) task) }
{
    let file = found.get_str("file");
    let steps = is_set(found, "steps");
    let notes = found.get_str("notes");
    match found.get_raw("page") {
        Some(values) => {
            let page = page_of(values)?;
            Some(Task::Draw {
                page: Some(page),
                steps,
                notes,
                file,
            })
        }
        None => Some(Task::Draw {
            page: None,
            steps,
            notes,
            file,
        }),
    }
}

/// A site's options.
pub(crate) fn site_task<'a>(found: &ArgMatches<'a>) -> Option<Task<'a>>
    ensures { IfSome result (λ task. IsAsked (codes "site") (rows_of (found_of found.now)) task) }
{
    let sites = Sites::new(number(found, "sites")?).ok()?;
    let me = SiteId(number(found, "me")?);
    let pages = number(found, "preset")?;
    if pages < 1 || pages > PAGES {
        return None;
    }
    let shortening = shortening_of(found)?;
    let journal = found.get_str("journal");
    let begins = is_set(found, "new");
    let seal = SealWords {
        cluster: found.get_str("cluster"),
        key: found.get_str("key"),
    };
    Some(Task::Site {
        sites,
        me,
        pages,
        journal,
        begins,
        seal,
        shortening,
    })
}

/// When the site's journal is made shorter, and what becomes of the whole one.
fn shortening_of(found: &ArgMatches<'_>) -> Option<Shortening>
    ensures { IfSome result (HasShortening (rows_of (found_of found.now))) }
{
    let at = long_number_or(found, "shorten-at", SHORTEN_AT)?;
    let forgets = is_set(found, "forget");
    Some(Shortening { at, forgets })
}

/// An audit's options, and the names of its files.
pub(crate) fn audit_task<'a>(alloc: Global, found: &ArgMatches<'a>) -> Option<Task<'a>>
    ensures { IfSome result (λ task. IsAsked (codes "audit") (rows_of (found_of found.now)) task) }
{
    let sites = Sites::new(number(found, "sites")?).ok()?;
    let journals = texts(alloc, found, "journals")?;
    Some(Task::Audit { sites, journals })
}

/// The file of a journal.
pub(crate) fn journal_task<'a>(found: &ArgMatches<'a>) -> Option<Task<'a>>
    ensures { IfSome result (λ task. IsAsked (codes "journal") (rows_of (found_of found.now)) task) }
{
    match found.get_str("file") {
        Some(file) => Some(Task::Journal { file }),
        None => None,
    }
}

/// The file of a journal that is to be shorter.
pub(crate) fn shorten_task<'a>(found: &ArgMatches<'a>) -> Option<Task<'a>>
    ensures { IfSome result (λ task. IsAsked (codes "shorten") (rows_of (found_of found.now)) task) }
{
    match found.get_str("file") {
        Some(file) => Some(Task::Shorten { file }),
        None => None,
    }
}

/// The texts that are written for an option, in their order; nothing where memory for the list is refused.
fn texts<'a>(alloc: Global, found: &ArgMatches<'a>, option: &str) -> Option<Vec<&'a str>>
    ensures { IfSome result (λ texts. all_of option.now (rows_of (found_of found.now)) ≡ Some (map (λ text. text.now) texts.items)) }
{
    let written = found.get_raw(option)?;
    let texts = Vec::from_slice(alloc, written).ok()?;
    Some(texts)
}

/// The page that is written as two numbers.
fn page_of(values: &[&str]) -> Option<PageId>
    ensures { IfSome result (λ page. page_named (map (λ value. value.now) values.now) ≡ Some page) }
{
    match values {
        [seg, index] => {
            let seg = SegId(plain_number(seg)?);
            let index = plain_number(index)?;
            Some(PageId { seg, index })
        }
        _ => None,
    }
}

fn plain_number(value: &str) -> Option<u32>
    ensures { IfSome result (λ number. number ≡ number_of value.now) }
{
    value.parse::<u32>().ok()
}
