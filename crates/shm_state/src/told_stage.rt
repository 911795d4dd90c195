//! The order in which the parts of a site's state are told.
ghost use Rattle.std.specs.Prelude.{◌≡◌};
ghost use Rattle.shm_state.specs.PartOf.{part_in};
ghost use Rattle.shm_state.specs.Stage.{is_due, is_whole, rank, stage_of};

use crate::part::Part;
use std::alloc::Allocator;

/// What parts are told of, in their order.
#[derive(Clone, Copy)]
pub enum Stage {
    /// Nothing so far.
    Nothing,
    /// The site's requests.
    Requests,
    /// Its segment calls.
    Calls,
    /// The call that is outstanding.
    Outstanding,
    /// The segments that the site made as a home.
    Segments,
    /// The destroyed segments that sites have yet to purge.
    Missing,
    /// The last replies.
    Kept,
    /// The segments that the site has purged.
    Purged,
    /// What it has of pages.
    Entries,
    /// Its attachments.
    Attachments,
    /// The books of the pages that it manages.
    Books,
}

impl Stage {
    fn rank(self) -> u8
        ensures { result ≡ rank self }
    {
        match self {
            Stage::Nothing => 0,
            Stage::Requests => 1,
            Stage::Calls => 2,
            Stage::Outstanding => 3,
            Stage::Segments => 4,
            Stage::Missing => 5,
            Stage::Kept => 6,
            Stage::Purged => 7,
            Stage::Entries => 8,
            Stage::Attachments => 9,
            Stage::Books => 10,
        }
    }

    /// Checks that what belongs to `next` may be told, where this was told last.
    pub(crate) fn lets(self, next: Stage) -> bool
        ensures { result ≡ is_due self next }
    {
        let last = self.rank();
        match next {
            Stage::Requests => last == 0,
            Stage::Calls => last == 1,
            Stage::Outstanding => last == 2,
            _ => 2 <= last && last <= next.rank(),
        }
    }

    /// Checks that the requests and the calls were told.
    pub(crate) fn is_whole(self) -> bool
        ensures { result ≡ is_whole self }
    {
        2 <= self.rank()
    }
}

impl<A: Allocator + Copy> Part<A> {
    /// When it is told.
    pub(crate) fn stage(&self) -> Stage
        ensures { result ≡ stage_of (part_in self.now) }
    {
        match self {
            Part::Requests(_) => Stage::Requests,
            Part::Calls(_) => Stage::Calls,
            Part::Outstanding { .. } => Stage::Outstanding,
            Part::Segment(_) => Stage::Segments,
            Part::Missing { .. } => Stage::Missing,
            Part::Kept { .. } => Stage::Kept,
            Part::Entry { .. } => Stage::Entries,
            Part::Purged(_) => Stage::Purged,
            Part::Attachment { .. } => Stage::Attachments,
            Part::Book { .. } => Stage::Books,
        }
    }
}
