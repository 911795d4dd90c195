//! Which parts of a site's state have a line that is read back as them.
ghost use Rattle.std.specs.Prelude.{◌≡◌, map, true};
ghost use Rattle.std.specs.List.{All};
ghost use Rattle.shm_lines.specs.Calls.{IsCall};
ghost use Rattle.shm_lines.specs.Words.{IsWide};
ghost use Rattle.shm_state.specs.BookWords.{IsBook};
ghost use Rattle.shm_state.specs.EntryWords.{IsEntry};
ghost use Rattle.shm_state.specs.PartOf.{book_in, entry_in, part_in};
ghost use Rattle.shm_state.specs.PartWords.{IsPart, IsSegment};
ghost use Rattle.shm_state.specs.SetWord.{IsSet};
ghost use Rattle.shm_wire.specs.PageWord.{IsPage};
ghost use Rattle.shm_model.specs.declared.call.Reply.TheVariants as said;
ghost use Rattle.shm_wire.specs.Replies.{IsReply};
ghost use Rattle.shm_journal.specs.StateLines.{IsMapping};

use shm_keys::Segment;
use shm_model::{Op, Reply, Stat};
use shm_place::{PAGE_BYTES, SiteSet};
use shm_state::{BookPart, EntryPart, Part};
use shm_wire::Mapping;
use std::alloc::Allocator;

/// Checks that each part has a line.
pub(crate) fn have_lines<A: Allocator + Copy>(parts: &[Part<A>]) -> bool
    ensures { result ≡ true → All IsPart (map part_in parts.now) }
{
    'parts: for part in parts {
        if !has_line(part) {
            return false;
        }
    }
    true
}

/// Checks that the part has a line: a page has as many bytes as a page has, and the flags of a call are such as there are.
fn has_line<A: Allocator + Copy>(part: &Part<A>) -> bool
    ensures { result ≡ true → IsPart (part_in part.now) }
{
    is_call_part(part) || is_page_part(part)
}

/// Checks that the part is one of a site's requests and calls, or of a home, and has a line.
fn is_call_part<A: Allocator + Copy>(part: &Part<A>) -> bool
    ensures { result ≡ true → IsPart (part_in part.now) }
{
    match part {
        Part::Requests(number) => {
            let _number = *number;
            true
        }
        Part::Calls(number) => {
            let _number = *number;
            true
        }
        Part::Outstanding { number, op } => {
            let _number = *number;
            call_has_line(*op)
        }
        Part::Segment(segment) => {
            segment_fits(*segment);
            true
        }
        Part::Missing { id, missing } => {
            let _id = id.0;
            set_fits(*missing);
            true
        }
        Part::Kept {
            site,
            number,
            reply,
        } => {
            let _site = site.0;
            let _number = *number;
            reply_fits(*reply);
            true
        }
        _ => false,
    }
}

/// Checks that the part is one of a site's pages, and has a line.
fn is_page_part<A: Allocator + Copy>(part: &Part<A>) -> bool
    ensures { result ≡ true → IsPart (part_in part.now) }
{
    match part {
        Part::Entry { page, entry } => {
            let _seg = page.seg.0;
            let _index = page.index;
            entry_has_line(entry)
        }
        Part::Purged(id) => {
            let _id = id.0;
            true
        }
        Part::Attachment {
            number,
            id,
            size,
            ..
        } => {
            let _number = *number;
            let _id = id.0;
            let _size = *size;
            true
        }
        Part::Book { page, book } => {
            let _seg = page.seg.0;
            let _index = page.index;
            book_fits(*book);
            true
        }
        _ => false,
    }
}

fn call_has_line(op: Op) -> bool
    ensures { result ≡ true → IsCall op }
{
    match op {
        Op::Get { mode, flags, .. } => {
            let _mode = mode.bits();
            flags.0 % 512 == 0 && flags.0 < 2048
        }
        Op::Set { mode, .. } => {
            let _mode = mode.bits();
            true
        }
        Op::Attach { .. } => true,
        Op::Detach { .. } => true,
        Op::Remove { .. } => true,
        Op::Stat { .. } => true,
    }
}

fn entry_has_line<A: Allocator + Copy>(entry: &EntryPart<A>) -> bool
    ensures { result ≡ true → IsEntry (entry_in entry.now) }
{
    match entry {
        EntryPart::Gone { number } => {
            let _number = *number;
            true
        }
        EntryPart::Copy { number, bytes } => {
            let _number = *number;
            is_page(bytes.as_slice())
        }
        EntryPart::OwnRead { number, bytes } => {
            let _number = *number;
            is_page(bytes.as_slice())
        }
        EntryPart::OwnWrite { number, bytes } => {
            let _number = *number;
            is_page(bytes.as_slice())
        }
        EntryPart::Handed { number, to, bytes } => {
            let _number = *number;
            let _to = to.0;
            is_page(bytes.as_slice())
        }
    }
}

fn is_page(bytes: &[u8]) -> bool
    ensures { result ≡ true → IsPage bytes.now }
{
    bytes.len() == PAGE_BYTES
}

// What follows says what the types promise.

/// Each field of a segment has a word.
fn segment_fits(segment: Segment)
    ensures { IsSegment segment }
{
    let _mode = segment.mode.bits();
}

/// Each field of a reply has a word.
fn reply_fits(reply: Reply)
    ensures { IsReply reply }
{
    if let Reply::Stat(stat) = reply {
        stat_fits(stat);
    }
}

fn stat_fits(stat: Stat)
    ensures { IsReply (said.Stat stat) }
{
    let _mode = stat.mode.bits();
}

/// A set is of 16 sites.
fn set_fits(set: SiteSet)
    ensures { IsSet set }
{
    let _members = set.members();
}

/// Each field of a book has a word.
fn book_fits(book: BookPart)
    ensures { IsBook (book_in book) }
{
    set_fits(book.copies);
    numbers_fit(&book.served);
}

fn numbers_fit(numbers: &[u64])
    ensures { All IsWide numbers.now }
{}

/// Each field of what is mapped has a word.
pub(crate) fn mappings_fit(mapped: &[Mapping])
    ensures { All IsMapping mapped.now }
{
    'mapped: for mapping in mapped {
        mapping_fits(*mapping);
    }
}

fn mapping_fits(mapping: Mapping)
    ensures { IsMapping mapping }
{}
