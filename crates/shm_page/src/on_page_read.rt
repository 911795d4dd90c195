ghost use Rattle.std.specs.Prelude.{◌≡◌};
ghost use Rattle.shm_model.specs.Entry as model;
ghost use Rattle.shm_model.specs.declared.request_kind.Kind.TheVariants as kind;
ghost use Rattle.shm_page.specs.Entry.{entry_of};
ghost use Rattle.shm_page.specs.Out.{out_of};

use crate::entry::Entry;
use crate::lent_copy::ReadGrant;
use crate::outgoing_message::Out;
use std::alloc::Allocator;

/// A lent copy came. A copy that came before is confirmed again and never installed again; an owner needs none.
pub fn take_copy<A: Allocator + Copy>(entry: Entry<A>, grant: ReadGrant<A>) -> (Entry<A>, Out<A>)
    ensures row { (entry_of result.0, out_of result.1)
        ≡ model.on_page grant.number kind.Read grant.bytes (entry_of entry) }
{
    let number = grant.number();
    let seen = entry.seen();
    if number < seen {
        return (entry, Out::Nothing);
    }
    if number == seen {
        return (entry, Out::Confirm(number));
    }
    match entry {
        Entry::Nil(page) => (Entry::Copy(page.install_read(grant)), Out::Confirm(number)),
        Entry::Copy(page) => (Entry::Copy(page.install_read(grant)), Out::Confirm(number)),
        Entry::OwnRead(page) => (Entry::OwnRead(page), Out::Nothing),
        Entry::OwnWrite(page) => (Entry::OwnWrite(page), Out::Nothing),
        Entry::Handed(page) => (Entry::Copy(page.install_read(grant)), Out::Confirm(number)),
    }
}
