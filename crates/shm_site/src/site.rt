ghost use Rattle.std.specs.Prelude.{◌≡◌, ◌<◌};

use shm_attach::{CallBook, Home};
use shm_number::Counter;
use shm_parts::{Books, Holdings, Pendings};
use shm_place::{SiteId, Sites};
use std::alloc::{Allocator, Global};

/// One site: all that it keeps over a restart, and what it doesn't.
#[derive(Drop)]
pub struct Site<A: Allocator + Copy = Global> {
    pub(crate) sites: Sites,
    pub(crate) me: SiteId,
    pub(crate) holdings: Holdings<A>,
    pub(crate) books: Books<A>,
    pub(crate) requests: Counter,
    pub(crate) pending: Pendings<A>,
    pub(crate) calls: CallBook,
    pub(crate) home: Home<A>,
    pub(crate) alloc: A,
    ghost below: { me < sites },
    ghost held_sites: { holdings.sites ≡ sites },
    ghost held_me: { holdings.me ≡ me },
    ghost own_home: { home.table.home ≡ me },
    ghost all_sites: { home.table.sites ≡ sites },
}
