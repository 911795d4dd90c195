ghost use Rattle.std.specs.Prelude.{◌<◌};

use shm_model::Kind;
use shm_place::SiteId;

/// A request that waits until the transaction before it has ended.
#[derive(Clone, Copy)]
pub(crate) struct Ask {
    pub(crate) from: SiteId,
    pub(crate) request: u64,
    pub(crate) kind: Kind,
    ghost a_site: { from < 16 },
}
