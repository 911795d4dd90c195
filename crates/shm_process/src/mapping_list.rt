//! Lists of what is mapped.
ghost use Rattle.std.specs.Prelude.{◌≡◌, IfOk, option_map, unwrap_or};
ghost use Rattle.shm_mapping.specs.Verdicts as verdicts;
ghost use Rattle.shm_parts.specs.Message.{message_of, note_of};
ghost use Rattle.shm_process.specs.Mapped as spec;

use shm_mapping::{Brought, Verdict, verdict_on};
use shm_model::Kind;
use shm_parts::{EntryNote, Message, Note};
use shm_place::{PageId, SiteId};
use shm_wire::Mapping;
use std::alloc::{AllocError, Allocator};

/// The page's mapping.
pub(crate) fn mapped_at(mapped: &[Mapping], page: &PageId) -> Option<Mapping>
    ensures { result ≡ spec.mapped_at page.now mapped.now }
{
    mapped.iter().copied().find(|mapping| *page == mapping.page)
}

/// Checks that a page is mapped through the attachment.
pub(crate) fn is_mapped_through(mapped: &[Mapping], at: u32) -> bool
    ensures { result ≡ spec.is_mapped_through at mapped.now }
{
    mapped.iter().any(|mapping| mapping.at == at)
}

/// What is mapped once the page is given up so far: nothing of it stays mapped, or it may be read on.
pub(crate) fn lowered<A: Allocator + Copy>(
    alloc: A,
    mapped: &[Mapping],
    page: &PageId,
    keeps: Option<Kind>,
) -> Result<Vec<Mapping, A>, AllocError>
    ensures { IfOk result (λ left. left.items ≡ spec.lowered page.now keeps mapped.now) }
{
    mapped
        .iter()
        .filter_map(|mapping| left_of(page, keeps, mapping))
        .collect(alloc)
}

/// What stays of a mapping.
fn left_of(page: &PageId, keeps: Option<Kind>, mapping: &Mapping) -> Option<Mapping>
    ensures { result ≡ spec.left_of page.now keeps mapping.now }
{
    if *page != mapping.page {
        return Some(*mapping);
    }
    match keeps {
        None => None,
        Some(Kind::Read) => Some(Mapping {
            at: mapping.at,
            page: mapping.page,
            kind: Kind::Read,
        }),
        Some(Kind::Write) => Some(*mapping),
    }
}

/// What is mapped with this mapping. What is mapped to write stays so.
pub(crate) fn remapped<A: Allocator + Copy>(
    alloc: A,
    mapped: &[Mapping],
    new: &Mapping,
) -> Result<Vec<Mapping, A>, AllocError>
    ensures { IfOk result (λ after. after.items ≡ spec.remapped new.now mapped.now) }
{
    let mut after = lowered(alloc, mapped, &new.page, None)?;
    after.push(mapped_for(new, mapped_at(mapped, &new.page)))?;
    Ok(after)
}

fn mapped_for(new: &Mapping, old: Option<Mapping>) -> Mapping
    ensures { result ≡ spec.mapped_for new.now old }
{
    match old {
        Some(old) if old.kind == Kind::Write => old,
        _ => *new,
    }
}

/// The mapping that a message asks for, if it asks for one.
pub(crate) fn wanted<A: Allocator + Copy>(
    me: SiteId,
    message: &Message<A>,
    mapped: &[Mapping],
) -> Option<Mapping>
    ensures { result ≡ spec.wanted me (message_of message.now) mapped.now }
{
    mapped.iter().copied().find(|mapping| verdict_for(me, message, mapping) != Verdict::Take)
}

/// What has to be done to a mapping before the site takes the message.
pub(crate) fn verdict_for<A: Allocator + Copy>(
    me: SiteId,
    message: &Message<A>,
    mapping: &Mapping,
) -> Verdict
    ensures { result ≡ spec.verdict_for me (message_of message.now) mapping.now }
{
    let Message::Of { page, note } = message else {
        return Verdict::Take;
    };
    if *page != mapping.page {
        return Verdict::Take;
    }
    verdict_on(brought(me, note), mapping.kind)
}

/// The effect of a note on a page's entry.
fn brought<A: Allocator + Copy>(me: SiteId, note: &Note<A>) -> Brought
    ensures { result ≡ verdicts.brought me (note_of note.now) }
{
    match note {
        Note::ToEntry(EntryNote::Clear(_)) => Brought::Clear,
        Note::ToEntry(EntryNote::Hand { kind, to, .. }) if *to != me => Brought::Hand(*kind),
        _ => Brought::Other,
    }
}

/// What may stay mapped.
pub(crate) fn keeps_under(verdict: Verdict) -> Option<Kind>
    ensures { result ≡ spec.keeps_under verdict }
{
    match verdict {
        Verdict::UnmapToRead => Some(Kind::Read),
        _ => None,
    }
}

/// What is mapped changes, if it does.
pub(crate) fn change_mapped<A: Allocator + Copy>(
    mapped: &mut Vec<Mapping, A>,
    after: Option<Vec<Mapping, A>>,
)
    ensures { mapped.new.items ≡ unwrap_or (option_map (λ m. m.items) after) mapped.old.items }
{
    if let Some(after) = after {
        *mapped = after;
    }
}
