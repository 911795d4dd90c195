//! Checks what clap doesn't: words are short, and numbers are spelled in one way.
ghost use Rattle.std.specs.Prelude.{◌≡◌, map, option_map, IfOk};
ghost use Rattle.std.specs.List.{list_all, list_any};
ghost use Rattle.std.specs.Char.{is_ascii_digit};
ghost use Rattle.clap.specs.Kinds.{HasKind, Kinds};
ghost use Rattle.clap.specs.Words.{found_of, kind_of, rows_of, subcommand_rows_of};
ghost use Rattle.clap.specs.declared.error.kind.ErrorKind.TheVariants.{OutOfMemory, UnknownArgument, ValueValidation};
ghost use Rattle.shm_command.specs.Words as spec;

use crate::args::command_definitions::command;
use clap::error::ErrorKind;
use clap::{ArgMatches, Error};
use std::alloc::{AllocError, Global};
use std::convert::AsStr;

/// The most bytes of a word that an error shows.
const MOST_BYTES: usize = 80;

/// Checks that some word behind the program's name is longer than errors show.
pub fn has_long_word<S: AsStr>(words: &[S]) -> bool
    ensures { result ≡ spec.has_long_word (map S.text words.now) }
{
    match words.split_first() {
        Some((_, others)) => is_any_long(others),
        None => false,
    }
}

fn is_any_long<S: AsStr>(words: &[S]) -> bool
    ensures { result ≡ list_any (λ word. spec.is_long (S.text word)) words.now }
{
    words.iter().any(|word| is_long(word.as_str()))
}

fn is_long(word: &str) -> bool
    ensures { result ≡ spec.is_long word.now }
{
    word.len() > MOST_BYTES
}

/// Checks that the numbers of the subcommand's options are spelled plainly.
pub fn has_plain_numbers(matches: &ArgMatches<'_>) -> bool
    ensures { result ≡ spec.has_plain_rows (option_map (λ named. named.1) (subcommand_rows_of matches.now)) }
{
    match matches.subcommand() {
        Some((_, found)) => are_plain(found),
        None => true,
    }
}

fn are_plain(found: &ArgMatches<'_>) -> bool
    ensures { result ≡ spec.are_plain (rows_of (found_of found.now)) }
{
    is_plain_at(found, "sites")
        && is_plain_at(found, "seed")
        && is_plain_at(found, "page")
        && is_plain_at(found, "me")
        && is_plain_at(found, "preset")
        && is_plain_at(found, "runs")
        && is_plain_at(found, "lose")
        && is_plain_at(found, "repeat")
        && is_plain_at(found, "restart")
        && is_plain_at(found, "shorten-at")
}

/// Checks that what is written for an option is spelled plainly.
pub fn is_plain_at(found: &ArgMatches<'_>, option: &str) -> bool
    ensures { result ≡ spec.is_plain_at option.now (rows_of (found_of found.now)) }
{
    match found.get_raw(option) {
        Some(values) => are_all_plain(values),
        None => true,
    }
}

fn are_all_plain(values: &[&str]) -> bool
    ensures { result ≡ list_all (λ value. spec.is_plain value.now) values.now }
{
    values.iter().all(|value| is_plain(value))
}

/// Digits, of which the first isn't a 0 before others.
fn is_plain(value: &str) -> bool
    ensures { result ≡ spec.is_plain value.now }
{
    let digits = value.as_bytes();
    if digits.is_empty() {
        return false;
    }
    if digits.len() > 1 && digits[0] == b'0' {
        return false;
    }
    all_digits(digits)
}

fn all_digits(digits: &[u8]) -> bool
    ensures { result ≡ list_all is_ascii_digit digits.now }
{
    digits.iter().all(|digit| digit.is_ascii_digit())
}

/// The error where clap refuses the words. If a word is too long, it names that word alone, by its first bytes.
pub fn short_error<S: AsStr>(alloc: Global, words: &[S], error: Error) -> Error
    ensures short { (kinds : Kinds) → HasKind kinds error → HasKind (spec.clap_fault (spec.has_long_word (map S.text words.now)) kinds) result }
{
    if error.kind() == ErrorKind::OutOfMemory || !has_long_word(words) {
        return error;
    }
    match long_word_error(alloc, words) {
        Ok(told) => told,
        Err(_) => Error::from(AllocError),
    }
}

/// The error for the first word that is too long, by its first bytes.
fn long_word_error<S: AsStr>(alloc: Global, words: &[S]) -> Result<Error, AllocError>
    ensures { IfOk result (λ error. kind_of error ≡ UnknownArgument) }
{
    let word = words
        .iter()
        .skip(1)
        .map(|word| word.as_str())
        .find(|word| is_long(*word));
    let front = front_of(word.unwrap_or(""));
    let message = format!(in alloc;
        "unexpected argument '{front}..' found: a word has at most 80 bytes"
    )?;
    command(alloc)?.error(ErrorKind::UnknownArgument, message.as_str())
}

/// The longest front of a word that has at most 80 bytes and ends with a character.
fn front_of(word: &str) -> &str {
    for end in [80, 79, 78, 77] {
        if let Some(front) = word.get(..end) {
            return front;
        }
    }
    word
}

/// The error for a number that isn't spelled plainly.
pub fn spelling_error(alloc: Global, matches: &ArgMatches<'_>) -> Result<Error, AllocError>
    ensures { IfOk result (λ error. kind_of error ≡ ValueValidation) }
{
    let Some((_, found)) = matches.subcommand() else {
        return command(alloc)?.error(ErrorKind::ValueValidation, "invalid number");
    };
    let option = option_of_error(found);
    let number = front_of(wrong_value(found, option));
    let message = format!(in alloc;
        "invalid value '{number}' for '--{option}': a number has no sign and no leading zeros"
    )?;
    command(alloc)?.error(ErrorKind::ValueValidation, message.as_str())
}

/// The first of the options whose numbers aren't spelled plainly.
fn option_of_error(found: &ArgMatches<'_>) -> &'static str {
    for option in [
        "sites", "seed", "page", "me", "preset", "runs", "lose", "repeat", "restart",
    ] {
        if !is_plain_at(found, option) {
            return option;
        }
    }
    "shorten-at"
}

/// The first of an option's values that isn't spelled plainly.
fn wrong_value<'a>(found: &ArgMatches<'a>, option: &str) -> &'a str {
    let Some(values) = found.get_raw(option) else {
        return "";
    };
    for value in values {
        if !is_plain(value) {
            return value;
        }
    }
    ""
}
