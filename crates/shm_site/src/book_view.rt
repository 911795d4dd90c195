use shm_model::Kind;
use shm_place::{SiteId, SiteSet};

/// A view of a manager's book: the owner, the other sites that may have copies, the number of the last transaction, and what the running
/// one gives to which site.
#[derive(Clone, Copy)]
pub struct BookView {
    pub owner: SiteId,
    pub copies: SiteSet,
    pub number: u64,
    pub running: Option<(Kind, SiteId)>,
}
