//! Segment calls at both ends: a site's one outstanding call, its attachments and what an access through them reaches; and the
//! home that executes each call once, however often it comes.
#![tactic(auto)]

mod access_error;
mod attachments;
mod begin_call_error;
mod call_outcome;
mod execute_call;
mod outstanding_call;
mod reached_place;
mod segment_home;

pub use access_error::Denied;
pub use attachments::{Attachments, MAX_ATTACHMENTS};
pub use begin_call_error::BeginFault;
pub use call_outcome::Done;
pub use outstanding_call::CallBook;
pub use reached_place::right;
pub use segment_home::Home;
pub use shm_model::{Attached, Op, Reply, Request};
