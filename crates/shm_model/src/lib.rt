//! The definitions on which all proofs of Leddwyfan rest: plain data that code and definitions share is declared here, and `specs/` says
//! what pages, managers, segment calls, sites and the world are.
#![tactic(auto)]

mod answer;
mod asked_access;
mod call;
mod event;
mod limits;
mod mode_and_get_flags;
pub mod refusal;
mod request_kind;
mod world_opening;

pub use answer::{Access, Answer, Shown, State};
pub use asked_access::Asked;
pub use call::{Attached, Cred, Errno, Op, Reply, Request, Stat};
pub use event::Event;
pub use limits::MAX_SENT;
pub use mode_and_get_flags::{GetFlags, Mode, Permissions};
pub use refusal::Numbered;
pub use request_kind::Kind;
pub use world_opening::Opening;
