//! A run that was audited.
use crate::workload_outcome::Ran;
use shm_lines::Workload;
use shm_place::Sites;
use shm_sites::Event;

/// The result of a workload that these sites ran. Only `run_audited` makes one, where an audit accepted the sites' logs and the callers'
/// receipts.
#[derive(Drop)]
pub struct Audited {
    pub(crate) sites: Sites,
    pub(crate) workload: Workload,
    pub(crate) ran: Ran,
    /// All steps of all logs, in the order that the audit found.
    pub(crate) events: Vec<Event>,
}
