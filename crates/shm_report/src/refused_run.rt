//! A run of a workload that was refused.
use crate::workload_outcome::Ran;

/// Why a workload has no result, and what was run, where all callers came to their ends.
#[derive(Drop)]
pub struct Refused<F: Copy> {
    pub fault: F,
    /// A fault of the logs or of the audit tells of these receipts and logs.
    pub ran: Option<Ran>,
}
