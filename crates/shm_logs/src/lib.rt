//! Logs of sites, and their audit: a site in its box, which logs every step that it makes (`site_boxes`), and the audit of logs and
//! receipts (`log_audit`). Nothing here needs threads.
#![tactic(auto)]

mod log_audit;
mod site_boxes;

pub use log_audit::{
    AuditFault, Event, StepName, audit, audit_complete, events, laws, logs_match, merge,
};
pub use shm_place::{NoSuchSite, SiteId, Sites};
pub use site_boxes::{
    Answer, Asked, BoxFault, Envelope, Input, Receipt, SiteBox, SiteLog, Stamp, Step,
};
