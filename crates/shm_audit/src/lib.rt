//! The audit of sites that ran as processes: the steps that a journal records are made again in a box, and the logs of all sites are judged.
#![tactic(auto)]

mod box_replay;
mod box_replay_input;
mod count_totals;
mod find_missing_step;
mod journals_audit;
mod journals_error;
pub mod laws;
mod log_from_journal;
mod site_from_header;
mod totals;

pub use find_missing_step::{MissingStep, missing_step};
pub use journals_audit::audit_journals;
pub use journals_error::JournalsFault;
pub use log_from_journal::read_log;
pub use shm_journal::JournalFault;
pub use totals::Totals;
