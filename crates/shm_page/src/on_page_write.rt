ghost use Rattle.std.specs.Prelude.{◌≡◌, ◌<◌, IfOk, IfErr, IsErr, false};
ghost use Rattle.shm_model.specs.Entry as model;
ghost use Rattle.shm_model.specs.declared.request_kind.Kind.TheVariants as kind;
ghost use Rattle.shm_page.specs.Entry.{entry_of};
ghost use Rattle.shm_page.specs.Out.{out_of};

use crate::entry::Entry;
use crate::handed_page::WriteGrant;
use crate::outgoing_message::Out;
use std::alloc::{AllocError, Allocator};

/// The page came, and this site is to write it. A page that came before is confirmed again and never installed again,
/// so that it undoes no store; an owner takes none.
///
/// Memory is taken only where the page is installed; where it is refused, entry and grant come back.
pub fn take_ownership<A: Allocator + Copy>(
    entry: Entry<A>,
    grant: WriteGrant<A>,
) -> Result<(Entry<A>, Out<A>), (Entry<A>, WriteGrant<A>, AllocError)>
    ensures row { IfOk result (λ r. (entry_of r.0, out_of r.1)
        ≡ model.on_page grant.number kind.Write grant.bytes (entry_of entry)) }
    ensures kept { IfErr result (λ e. (entry_of e.0 ≡ entry_of entry) × (e.1 ≡ grant)) }
    ensures refused_only_where_newer { IsErr result → model.seen (entry_of entry) < grant.number }
    ensures refused_only_where_not_owned { IsErr result → model.owned (entry_of entry) ≡ false }
{
    let number = grant.number();
    let seen = entry.seen();
    if number < seen {
        return Ok((entry, Out::Nothing));
    }
    if number == seen {
        return Ok((entry, Out::Confirm(number)));
    }
    match entry {
        Entry::Nil(page) => match page.install_write(grant) {
            Ok(page) => Ok((Entry::OwnWrite(page), Out::Confirm(number))),
            Err((page, grant, error)) => Err((Entry::Nil(page), grant, error)),
        },
        Entry::Copy(page) => match page.install_write(grant) {
            Ok(page) => Ok((Entry::OwnWrite(page), Out::Confirm(number))),
            Err((page, grant, error)) => Err((Entry::Copy(page), grant, error)),
        },
        Entry::OwnRead(page) => Ok((Entry::OwnRead(page), Out::Nothing)),
        Entry::OwnWrite(page) => Ok((Entry::OwnWrite(page), Out::Nothing)),
        Entry::Handed(page) => match page.install_write(grant) {
            Ok(page) => Ok((Entry::OwnWrite(page), Out::Confirm(number))),
            Err((page, grant, error)) => Err((Entry::Handed(page), grant, error)),
        },
    }
}
