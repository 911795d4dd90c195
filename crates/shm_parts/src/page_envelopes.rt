//! Envelopes about pages.
ghost use Rattle.std.specs.Prelude.{◌≡◌, ◌∷◌, [], true, false, IfNone, IfSome};
ghost use Rattle.shm_model.specs.Message.{Of};
ghost use Rattle.shm_model.specs.Transfer.{is_nothing, sent_by};
ghost use Rattle.shm_page.specs.Out.{out_of};
ghost use Rattle.shm_parts.specs.Message.{book_note_of, entry_note_of, envelope_of};
ghost use Rattle.shm_place.specs.Page as place;

use crate::message::{BookNote, EntryNote, Envelope, Message, Note};
use shm_page::Out;
use shm_place::{PageId, SiteId, Sites, manager_of};
use std::alloc::Allocator;

/// The envelope that takes a note to the page's manager.
pub fn to_manager<A: Allocator + Copy>(
    sites: Sites,
    me: SiteId,
    page: &PageId,
    told: BookNote,
) -> Envelope<A>
    ensures { envelope_of result ≡ record { from = me; to = place.manager_of sites page.now; message = Of page.now (book_note_of told) } }
{
    let to = manager_of(sites, *page);
    Envelope {
        from: me,
        to,
        message: Message::Of {
            page: *page,
            note: Note::ToBook(told),
        },
    }
}

/// The envelope that takes a note to the page's entry at a site.
pub fn to_site<A: Allocator + Copy>(
    me: SiteId,
    to: SiteId,
    page: &PageId,
    told: EntryNote<A>,
) -> Envelope<A>
    ensures { envelope_of result ≡ record { from = me; to = to; message = Of page.now (entry_note_of told) } }
{
    Envelope {
        from: me,
        to,
        message: Message::Of {
            page: *page,
            note: Note::ToEntry(told),
        },
    }
}

/// The envelope that goes out when a message met the page's entry.
pub(crate) fn envelope_out<A: Allocator + Copy>(
    sites: Sites,
    me: SiteId,
    page: &PageId,
    out: Out<A>,
) -> Option<Envelope<A>>
    ensures nothing { IfNone result (is_nothing (out_of out) ≡ true) }
    ensures something { IfSome result (λ _. is_nothing (out_of out) ≡ false) }
    ensures sent { IfSome result (λ envelope. sent_by sites me page.now (out_of out) ≡ envelope_of envelope ∷ []) }
{
    match out {
        Out::Nothing => None,
        Out::Cleared(number) => Some(to_manager(sites, me, page, BookNote::Cleared(number))),
        Out::Confirm(number) => Some(to_manager(sites, me, page, BookNote::Confirm(number))),
        Out::Read(to, grant) => Some(to_site(me, to, page, EntryNote::Read(grant))),
        Out::Write(to, grant) => Some(to_site(me, to, page, EntryNote::Write(grant))),
    }
}
