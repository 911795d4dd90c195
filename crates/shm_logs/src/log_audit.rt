//! The logs of running sites in one order, and their audit. From the logs and the callers' receipts it finds the list of events that the
//! sites made together, or the first cause why there is none.
mod audit_error;
mod audit_logs;
mod check_receipts;
mod check_same_sites;
mod envelope_numbering;
mod events_from_steps;
mod first_wrong_step;
pub mod laws;
mod merge_logs;
mod receipt_marks;
mod same_envelope;
mod step_id;
mod steps_without_receipt;

pub use audit_error::AuditFault;
pub use audit_logs::{audit, audit_complete};
pub use check_same_sites::logs_match;
pub use events_from_steps::events;
pub use merge_logs::merge;
pub use shm_model::Event;
pub use step_id::StepName;
