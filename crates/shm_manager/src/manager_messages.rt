use shm_model::Kind;
use shm_place::{SiteId, SiteSet};

/// How many orders go out at once, at most.
pub const MOST_ORDERS: usize = 16;

/// The messages that a manager sends to other sites for the running transaction, whose number is the book's.
#[derive(Clone, Copy, Debug, PartialEq, Eq)]
pub enum Orders {
    /// Nothing is asked for now.
    Nothing,
    /// The owner is to hand the page, or a copy of it, to the requester.
    Hand {
        owner: SiteId,
        requester: SiteId,
        kind: Kind,
    },
    /// Each site of the set is to give up its copy, and to say so.
    Clear(SiteSet),
}
