use crate::gave::Gave;
use shm_lines::WorkloadAccess;

/// A line of a workload, as far as a run came.
#[derive(Clone, Copy, Debug, PartialEq, Eq)]
pub struct LineState {
    pub access: WorkloadAccess,
    /// What the access gave, once it was done.
    pub gave: Gave,
    /// How often the site asked for the page, since it had no right to it.
    pub faults: u32,
    /// How often the access was tried and not done yet.
    pub rounds: u32,
}
