//! For who steps a world: the world, its events and answers, how it is brought to rest, and an access that is made until it is answered,
//! with what that cost.
#![tactic(auto)]

mod access_cost;
mod event_kind;
mod outcome;
mod waiting_access;

pub use access_cost::Cost;
pub use event_kind::EventKind;
pub use outcome::{Done, Unanswered};
pub use shm_model::{Asked, Opening, Reply, Request};
pub use shm_parts::{Envelope, Message};
pub use shm_place::{PageId, SiteId, Sites};
pub use shm_progress::{Settled, deliver_all, oldest_from, settle};
pub use shm_world::{Access, Answer, Event, Shown, World};
pub use waiting_access::access_until_done;
