ghost use Rattle.std.specs.Prelude.{◌≡◌, ◌<◌};

use crate::told_stage::Stage;
use indexmap::IndexSet;
use shm_keys::SegTable;
use shm_model::{Op, Reply};
use shm_number::{KeptReply, Number};
use shm_parts::{Books, Holdings};
use shm_place::{PageId, SiteId, Sites};
use std::alloc::{Allocator, Global};
use std::hash::{BuildHasherDefault, FoldHasher};

/// What was told of a site's state so far.
#[derive(Drop)]
pub struct Told<A: Allocator + Copy = Global> {
    pub(crate) sites: Sites,
    pub(crate) me: SiteId,
    /// What was told last.
    pub(crate) last: Stage,
    pub(crate) requests: Number,
    pub(crate) begun: Number,
    pub(crate) outstanding: Option<(Number, Op)>,
    pub(crate) table: SegTable<A>,
    pub(crate) kept: KeptReply<Reply>,
    /// The pages of which entries were told.
    pub(crate) pages: IndexSet<PageId, BuildHasherDefault<FoldHasher>, A>,
    pub(crate) holdings: Holdings<A>,
    pub(crate) books: Books<A>,
    pub(crate) alloc: A,
    ghost below: { me < sites },
    ghost held_sites: { holdings.sites ≡ sites },
    ghost held_me: { holdings.me ≡ me },
    ghost own_home: { table.home ≡ me },
    ghost all_sites: { table.sites ≡ sites },
}
