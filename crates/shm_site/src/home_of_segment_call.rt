ghost use Rattle.std.specs.Prelude.{◌≡◌};
ghost use Rattle.shm_model.specs.Calls as model;

use shm_model::Op;
use shm_place::{SiteId, Sites, home_of_id, home_of_key};

/// The site that a call of `caller` goes to.
pub(crate) fn op_home(sites: Sites, caller: SiteId, op: &Op) -> SiteId
    ensures { result ≡ model.op_home sites caller op.now }
{
    match op {
        Op::Get { key, .. } => home_of_key(sites, caller, *key),
        Op::Attach { id, .. }
        | Op::Detach { id }
        | Op::Remove { id, .. }
        | Op::Set { id, .. }
        | Op::Stat { id, .. } => home_of_id(sites, *id),
    }
}
