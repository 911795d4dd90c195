ghost use Rattle.std.specs.Prelude.{◌≡◌, ◌≤◌, IfOk, IfErr, IsErr, IsTrue};
ghost use Rattle.shm_model.specs.Entry as model;
ghost use Rattle.shm_model.specs.declared.request_kind.Kind.TheVariants as kind;
ghost use Rattle.shm_page.specs.Entry.{entry_of};
ghost use Rattle.shm_page.specs.Out.{out_of, carries_bytes};

use crate::entry::Entry;
use crate::handed_page::HandedPage;
use crate::outgoing_message::Out;
use crate::own_read_page::OwnReadPage;
use crate::own_write_page::OwnWritePage;
use shm_place::SiteId;
use std::alloc::{AllocError, Allocator};

/// The manager told site `me` to hand its page to site `to`, which is to write. An owner keeps the page where that is itself.
///
/// A site that has handed the page over hands the same bytes over again. Memory is taken only where bytes are sent; where it is refused,
/// the entry comes back.
pub fn hand_to<A: Allocator + Copy>(
    entry: Entry<A>,
    number: u64,
    me: SiteId,
    to: SiteId,
) -> Result<(Entry<A>, Out<A>), (Entry<A>, AllocError)>
    ensures row { IfOk result (λ r. (entry_of r.0, out_of r.1)
        ≡ model.on_hand me number kind.Write to (entry_of entry)) }
    ensures kept { IfErr result (λ e. entry_of e.0 ≡ entry_of entry) }
    ensures refused_only_where_handed { IsErr result
        → IsTrue (carries_bytes (model.on_hand me number kind.Write to (entry_of entry)).1) }
{
    if number < entry.seen() {
        return Ok((entry, Out::Nothing));
    }
    match entry {
        Entry::Nil(page) => Ok((Entry::Nil(page), Out::Nothing)),
        Entry::Copy(page) => Ok((Entry::Copy(page), Out::Nothing)),
        Entry::OwnRead(page) => hand_lent(page, number, me, to),
        Entry::OwnWrite(page) => hand_written(page, number, me, to),
        Entry::Handed(page) => hand_again(page, number, me, to),
    }
}

fn hand_lent<A: Allocator + Copy>(
    page: OwnReadPage<A>,
    number: u64,
    me: SiteId,
    to: SiteId,
) -> Result<(Entry<A>, Out<A>), (Entry<A>, AllocError)>
    requires { page.seen ≤ number }
    ensures row { IfOk result (λ r. (entry_of r.0, out_of r.1)
        ≡ model.hand_write me number to (model.OwnRead page.seen page.bytes)) }
    ensures kept { IfErr result (λ e. entry_of e.0 ≡ model.OwnRead page.seen page.bytes) }
    ensures refused_only_where_handed { IsErr result
        → IsTrue (carries_bytes (model.hand_write me number to (model.OwnRead page.seen page.bytes)).1) }
{
    if to == me {
        return Ok((Entry::OwnWrite(page.upgrade(number)), Out::Confirm(number)));
    }
    if number <= page.seen() {
        return Ok((Entry::OwnRead(page), Out::Nothing));
    }
    match page.hand(number, to) {
        Ok((page, grant)) => Ok((Entry::Handed(page), Out::Write(to, grant))),
        Err((page, error)) => Err((Entry::OwnRead(page), error)),
    }
}

fn hand_written<A: Allocator + Copy>(
    page: OwnWritePage<A>,
    number: u64,
    me: SiteId,
    to: SiteId,
) -> Result<(Entry<A>, Out<A>), (Entry<A>, AllocError)>
    requires { page.seen ≤ number }
    ensures row { IfOk result (λ r. (entry_of r.0, out_of r.1)
        ≡ model.hand_write me number to (model.OwnWrite page.seen page.bytes)) }
    ensures kept { IfErr result (λ e. entry_of e.0 ≡ model.OwnWrite page.seen page.bytes) }
    ensures refused_only_where_handed { IsErr result
        → IsTrue (carries_bytes (model.hand_write me number to (model.OwnWrite page.seen page.bytes)).1) }
{
    if to == me {
        return Ok((Entry::OwnWrite(page.upgrade(number)), Out::Confirm(number)));
    }
    if number <= page.seen() {
        return Ok((Entry::OwnWrite(page), Out::Nothing));
    }
    match page.hand(number, to) {
        Ok((page, grant)) => Ok((Entry::Handed(page), Out::Write(to, grant))),
        Err((page, error)) => Err((Entry::OwnWrite(page), error)),
    }
}

fn hand_again<A: Allocator + Copy>(
    page: HandedPage<A>,
    number: u64,
    me: SiteId,
    to: SiteId,
) -> Result<(Entry<A>, Out<A>), (Entry<A>, AllocError)>
    requires { page.seen ≤ number }
    ensures row { IfOk result (λ r. (entry_of r.0, out_of r.1)
        ≡ model.hand_write me number to (model.Handed page.seen page.to page.bytes)) }
    ensures kept { IfErr result (λ e. entry_of e.0 ≡ model.Handed page.seen page.to page.bytes) }
    ensures refused_only_where_handed { IsErr result
        → IsTrue (carries_bytes (model.hand_write me number to (model.Handed page.seen page.to page.bytes)).1) }
{
    if page.to() != to || page.seen() != number {
        return Ok((Entry::Handed(page), Out::Nothing));
    }
    match page.again() {
        Ok(grant) => Ok((Entry::Handed(page), Out::Write(to, grant))),
        Err(error) => Err((Entry::Handed(page), error)),
    }
}
