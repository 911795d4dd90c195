//! Changes of one entry where it stands.
ghost use Rattle.std.specs.Prelude.{◌≡◌, ◌<◌, nat_lt, if◌then◌else◌, IfOk, IfErr, OnOk, OnErr};
ghost use Rattle.shm_place.specs.Limits.{page_bytes};
ghost use Rattle.shm_model.specs.Access.{stored_entry};
ghost use Rattle.shm_model.specs.Entry as model;
ghost use Rattle.shm_model.specs.Site.{untouched};
ghost use Rattle.shm_page.specs.Entry.{entry_of};
ghost use Rattle.shm_page.specs.Out.{out_of};
ghost use Rattle.shm_parts.specs.Entries.{change_of, row};
ghost use Rattle.shm_parts.specs.Message.{entry_note_of};

use crate::entry_change::Change;
use crate::message::EntryNote;
use crate::stored_entry_and_book::StoredEntry;
use shm_model::Kind;
use shm_page::{Entry, NilPage, Out, clear, hand_to, lend_to, take_copy, take_ownership};
use shm_place::{PageId, SiteId, Sites, manager_of};
use std::alloc::{AllocError, Allocator};
use std::mem;

/// The entry of a page before anything happened.
pub(crate) fn open<A: Allocator + Copy>(
    alloc: A,
    sites: Sites,
    me: SiteId,
    page: PageId,
) -> Result<StoredEntry<A>, AllocError>
    ensures { IfOk result (λ entry. entry_of entry ≡ untouched sites me page) }
{
    let entry = Entry::opening(alloc, manager_of(sites, page) == me)?;
    Ok(StoredEntry { entry })
}

/// Stores a byte where the entry may be written, and answers whether it did.
#[inline(always)]
pub(crate) fn store_in<A: Allocator + Copy>(
    entry: &mut StoredEntry<A>,
    within: usize,
    byte: u8,
) -> bool
    requires { within < page_bytes }
    ensures writable { result ≡ model.writable (entry_of entry.old) }
    ensures after { entry_of entry.new ≡ (if result then stored_entry within byte (entry_of entry.old) else entry_of entry.old) }
{
    let Entry::OwnWrite(page) = &mut entry.entry else {
        return false;
    };
    page.store(within, byte);
    true
}

/// Runs the note's row of the entry's table. Where memory is refused, the note comes back and nothing changes.
pub(crate) fn turn_in<A: Allocator + Copy>(
    entry: &mut StoredEntry<A>,
    me: SiteId,
    note: EntryNote<A>,
) -> Result<(Out<A>, Change), EntryNote<A>>
    ensures after { OnOk result (entry_of entry.new ≡ (row me (entry_note_of note) (entry_of entry.old)).0) }
    ensures out { IfOk result (λ r. out_of r.0 ≡ (row me (entry_note_of note) (entry_of entry.old)).1) }
    ensures change { IfOk result (λ r. r.1 ≡ change_of (entry_of entry.old) (row me (entry_note_of note) (entry_of entry.old)).0) }
    ensures back { IfErr result (λ back. entry_note_of back ≡ entry_note_of note) }
    ensures refused { OnErr result (entry_of entry.new ≡ entry_of entry.old) }
{
    let seen = entry.entry.seen();
    let before = mem::replace(&mut entry.entry, Entry::Nil(NilPage::after(0)));
    match turn(before, me, note) {
        Ok((after, out)) => {
            let change = change_since(seen, &after);
            entry.entry = after;
            Ok((out, change))
        }
        Err((before, note)) => {
            entry.entry = before;
            Err(note)
        }
    }
}

/// Gives the bytes up; what the entry met stays met.
pub(crate) fn forget_in<A: Allocator + Copy>(entry: &mut StoredEntry<A>)
    ensures { entry_of entry.new ≡ model.forget (entry_of entry.old) }
{
    let seen = entry.entry.seen();
    entry.entry = Entry::Nil(NilPage::after(seen));
}

/// The entry that the note makes of this one, and what the site sends. Where memory is refused, both come back.
fn turn<A: Allocator + Copy>(
    entry: Entry<A>,
    me: SiteId,
    note: EntryNote<A>,
) -> Result<(Entry<A>, Out<A>), (Entry<A>, EntryNote<A>)>
    ensures row { IfOk result (λ r. (entry_of r.0, out_of r.1) ≡ row me (entry_note_of note) (entry_of entry)) }
    ensures kept { IfErr result (λ e. entry_of e.0 ≡ entry_of entry) }
    ensures back { IfErr result (λ e. entry_note_of e.1 ≡ entry_note_of note) }
{
    match note {
        EntryNote::Clear(number) => Ok(clear(entry, number)),
        EntryNote::Hand { number, kind, to } => hand(entry, me, number, kind, to),
        EntryNote::Read(grant) => Ok(take_copy(entry, grant)),
        EntryNote::Write(grant) => match take_ownership(entry, grant) {
            Ok(taken) => Ok(taken),
            Err((entry, grant, _)) => Err((entry, EntryNote::Write(grant))),
        },
    }
}

/// The entry that a Hand makes of this one, and what the site sends. Where memory is refused, both come back.
fn hand<A: Allocator + Copy>(
    entry: Entry<A>,
    me: SiteId,
    number: u64,
    kind: Kind,
    to: SiteId,
) -> Result<(Entry<A>, Out<A>), (Entry<A>, EntryNote<A>)>
    ensures row { IfOk result (λ r. (entry_of r.0, out_of r.1) ≡ row me (model.Hand number kind to) (entry_of entry)) }
    ensures kept { IfErr result (λ e. entry_of e.0 ≡ entry_of entry) }
    ensures back { IfErr result (λ e. entry_note_of e.1 ≡ model.Hand number kind to) }
{
    let handed = match kind {
        Kind::Read => lend_to(entry, number, me, to),
        Kind::Write => hand_to(entry, number, me, to),
    };
    match handed {
        Ok(handed) => Ok(handed),
        Err((entry, _)) => Err((entry, EntryNote::Hand { number, kind, to })),
    }
}

/// The change of the entry since it had met this number.
fn change_since<A: Allocator + Copy>(seen: u64, entry: &Entry<A>) -> Change
    ensures newer { result.newer ≡ nat_lt seen (model.seen (entry_of entry.now)) }
    ensures copy { result.copy ≡ model.is_copy (entry_of entry.now) }
    ensures readable { result.readable ≡ model.readable (entry_of entry.now) }
    ensures writable { result.writable ≡ model.writable (entry_of entry.now) }
{
    let newer = seen < entry.seen();
    match entry {
        Entry::Nil(_) | Entry::Handed(_) => Change {
            newer,
            copy: false,
            readable: false,
            writable: false,
        },
        Entry::Copy(_) => Change {
            newer,
            copy: true,
            readable: true,
            writable: false,
        },
        Entry::OwnRead(_) => Change {
            newer,
            copy: false,
            readable: true,
            writable: false,
        },
        Entry::OwnWrite(_) => Change {
            newer,
            copy: false,
            readable: true,
            writable: true,
        },
    }
}
