ghost use Rattle.std.specs.Prelude.{◌≡◌, ◌≤◌, IfOk, IfErr, IsErr, IsTrue};
ghost use Rattle.shm_model.specs.Entry as model;
ghost use Rattle.shm_model.specs.declared.request_kind.Kind.TheVariants as kind;
ghost use Rattle.shm_page.specs.Entry.{entry_of};
ghost use Rattle.shm_page.specs.Out.{out_of, carries_bytes};

use crate::entry::Entry;
use crate::outgoing_message::Out;
use crate::own_read_page::OwnReadPage;
use crate::own_write_page::OwnWritePage;
use shm_place::SiteId;
use std::alloc::{AllocError, Allocator};

/// The manager told site `me` to lend its page to site `to`. An owner lends a copy, and then may only read.
///
/// Memory is taken only where a copy is lent; where it is refused, the entry comes back.
pub fn lend_to<A: Allocator + Copy>(
    entry: Entry<A>,
    number: u64,
    me: SiteId,
    to: SiteId,
) -> Result<(Entry<A>, Out<A>), (Entry<A>, AllocError)>
    ensures row { IfOk result (λ r. (entry_of r.0, out_of r.1)
        ≡ model.on_hand me number kind.Read to (entry_of entry)) }
    ensures kept { IfErr result (λ e. entry_of e.0 ≡ entry_of entry) }
    ensures refused_only_where_lent { IsErr result
        → IsTrue (carries_bytes (model.on_hand me number kind.Read to (entry_of entry)).1) }
{
    if number < entry.seen() {
        return Ok((entry, Out::Nothing));
    }
    match entry {
        Entry::Nil(page) => Ok((Entry::Nil(page), Out::Nothing)),
        Entry::Copy(page) => Ok((Entry::Copy(page), Out::Nothing)),
        Entry::OwnRead(page) => lend_more(page, number, me, to),
        Entry::OwnWrite(page) => lend_first(page, number, me, to),
        Entry::Handed(page) => Ok((Entry::Handed(page), Out::Nothing)),
    }
}

fn lend_first<A: Allocator + Copy>(
    mut page: OwnWritePage<A>,
    number: u64,
    me: SiteId,
    to: SiteId,
) -> Result<(Entry<A>, Out<A>), (Entry<A>, AllocError)>
    requires { page.seen ≤ number }
    ensures row { IfOk result (λ r. (entry_of r.0, out_of r.1)
        ≡ model.hand_read me number to (model.OwnWrite page.seen page.bytes)) }
    ensures kept { IfErr result (λ e. entry_of e.0 ≡ model.OwnWrite page.seen page.bytes) }
    ensures refused_only_where_lent { IsErr result
        → IsTrue (carries_bytes (model.hand_read me number to (model.OwnWrite page.seen page.bytes)).1) }
{
    if to == me {
        page.meet(number);
        return Ok((Entry::OwnWrite(page), Out::Confirm(number)));
    }
    match page.downgrade(number) {
        Ok((page, grant)) => Ok((Entry::OwnRead(page), Out::Read(to, grant))),
        Err((page, error)) => Err((Entry::OwnWrite(page), error)),
    }
}

fn lend_more<A: Allocator + Copy>(
    mut page: OwnReadPage<A>,
    number: u64,
    me: SiteId,
    to: SiteId,
) -> Result<(Entry<A>, Out<A>), (Entry<A>, AllocError)>
    requires { page.seen ≤ number }
    ensures row { IfOk result (λ r. (entry_of r.0, out_of r.1)
        ≡ model.hand_read me number to (model.OwnRead page.seen page.bytes)) }
    ensures kept { IfErr result (λ e. entry_of e.0 ≡ model.OwnRead page.seen page.bytes) }
    ensures refused_only_where_lent { IsErr result
        → IsTrue (carries_bytes (model.hand_read me number to (model.OwnRead page.seen page.bytes)).1) }
{
    if to == me {
        page.meet(number);
        return Ok((Entry::OwnRead(page), Out::Confirm(number)));
    }
    match page.lend(number) {
        Ok(grant) => Ok((Entry::OwnRead(page), Out::Read(to, grant))),
        Err(error) => Err((Entry::OwnRead(page), error)),
    }
}
