ghost use Rattle.std.specs.Prelude.{◌≡◌};
ghost use Rattle.shm_model.specs.Entry as model;
ghost use Rattle.shm_page.specs.Entry.{entry_of};
ghost use Rattle.shm_page.specs.Out.{out_of};

use crate::entry::Entry;
use crate::outgoing_message::Out;
use std::alloc::Allocator;

/// The manager told the site to give its copy up, because another site is to write. A site that has met the number answers again.
pub fn clear<A: Allocator + Copy>(entry: Entry<A>, number: u64) -> (Entry<A>, Out<A>)
    ensures row { (entry_of result.0, out_of result.1) ≡ model.on_clear number (entry_of entry) }
{
    if number <= entry.seen() {
        return (entry, Out::Cleared(number));
    }
    match entry {
        Entry::Nil(page) => (Entry::Nil(page.clear(number)), Out::Cleared(number)),
        Entry::Copy(page) => (Entry::Nil(page.clear(number)), Out::Cleared(number)),
        Entry::OwnRead(page) => (Entry::OwnRead(page), Out::Nothing),
        Entry::OwnWrite(page) => (Entry::OwnWrite(page), Out::Nothing),
        Entry::Handed(page) => (Entry::Nil(page.clear(number)), Out::Cleared(number)),
    }
}
