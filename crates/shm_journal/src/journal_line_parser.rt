//! Reads the lines of a journal.
ghost use Rattle.std.specs.Prelude.{◌≡◌, None, Some, IfNone, IfOk, IfSome, option_map};
ghost use Rattle.shm_process.specs.CauseOf.{cause_of};
ghost use Rattle.shm_process.specs.Recorded.{IsEntry};
ghost use Rattle.shm_journal.specs.EntryOf.{entry_of};
ghost use Rattle.shm_journal.specs.HeaderOf.{header_of};
ghost use Rattle.shm_journal.specs.Lines.{cluster_after, cluster_named, or_restart, read_cause, read_entry, read_header, read_written};
ghost use Rattle.shm_seal.specs.NameOf.{name_of};

use crate::journal_entry::Entry;
use crate::journal_header::Header;
use shm_lines::{Words, split_at, wide_number};
use shm_process::Cause;
use shm_seal::ClusterName;
use shm_wire::parse_line;
use std::alloc::{AllocError, Allocator};

/// Reads a line, without its line feed, as a header. `None` where it is none.
pub fn parse_header(line: &[u8]) -> Option<Header>
    ensures { option_map header_of result ≡ read_header line.now }
{
    let (verb, words) = Words::of(line).word()?;
    if verb != b"journal".as_slice() {
        return None;
    }
    let (sites, words) = words.number()?;
    let (me, words) = words.number()?;
    let (pages, words) = words.number()?;
    let cluster = parse_cluster(words)?;
    Some(Header {
        sites,
        me,
        pages,
        cluster,
    })
}

/// Reads what is left of a header: the cluster's name, or nothing.
fn parse_cluster(words: Words<'_>) -> Option<Option<ClusterName>>
    ensures { option_map (option_map name_of) result ≡ cluster_after words.entry }
{
    let Some((word, words)) = words.word() else {
        return Some(None);
    };
    if !words.is_empty() {
        return None;
    }
    let name = cluster_of_word(word)?;
    Some(Some(name))
}

/// Reads a word as a cluster's name behind an at sign.
fn cluster_of_word(word: &[u8]) -> Option<ClusterName>
    ensures { option_map name_of result ≡ cluster_named word.now }
{
    let (sign, name) = word.split_first()?;
    if *sign != b'@' {
        return None;
    }
    ClusterName::new(name)
}

/// Reads a line, without its line feed, as an entry. `None` where it is none. Only a page's bytes take memory.
pub fn parse_entry<A: Allocator + Copy>(
    alloc: A,
    line: &[u8],
) -> Result<Option<Entry<A>>, AllocError>
    ensures read { IfOk result (λ entry. option_map entry_of entry ≡ read_entry line.now) }
    ensures lines { IfOk result (λ entry. IfSome entry (λ e. IsEntry (entry_of e))) }
{
    let Some((clock, text)) = split_entry(line) else {
        return Ok(None);
    };
    match parse_cause(alloc, text)? {
        Some(cause) => Ok(Some(Entry { clock, cause })),
        None => Ok(None),
    }
}

/// The clock of the first step that this line records, and the text of what made its steps.
fn split_entry(line: &[u8]) -> Option<(u64, &[u8])>
    ensures some { IfSome result (λ entry. read_written line.now ≡ Some (record { clock = entry.0; text = entry.1.now })) }
    ensures none { IfNone result (read_written line.now ≡ None) }
{
    let (verb, rest) = split_at(line, b' ');
    if verb != b"step".as_slice() {
        return None;
    }
    let (word, rest) = split_at(rest?, b' ');
    let clock = wide_number(word)?;
    let text = rest?;
    Some((clock, text))
}

/// Reads the cause of steps: a line, or the site's restart.
fn parse_cause<A: Allocator + Copy>(alloc: A, text: &[u8]) -> Result<Option<Cause<A>>, AllocError>
    ensures { IfOk result (λ cause. option_map cause_of cause ≡ read_cause text.now) }
{
    match parse_line(alloc, text)? {
        Some(line) => Ok(Some(Cause::Line(line))),
        None => Ok(parse_restart(text)),
    }
}

fn parse_restart<A: Allocator + Copy>(text: &[u8]) -> Option<Cause<A>>
    ensures { option_map cause_of result ≡ or_restart text.now None }
{
    if text != b"restart".as_slice() {
        return None;
    }
    Some(Cause::Restart)
}
