//! Sites in threads, with locks and channels, and the clients that load and store at them (`cluster`). Each site is in its box, which
//! logs every step that it makes; the boxes, their logs and the audit of them are those of shm_logs.
#![tactic(auto)]

mod cluster;

pub use cluster::{Client, ClientFault, Cluster, Gate, OpenGate, Shared, StartFault};
pub use shm_logs::{
    Answer, Asked, AuditFault, BoxFault, Envelope, Event, Input, Receipt, SiteBox, SiteLog, Stamp,
    Step, StepName, audit, audit_complete, events, laws, logs_match, merge,
};
pub use shm_place::{NoSuchSite, SiteId, Sites};
