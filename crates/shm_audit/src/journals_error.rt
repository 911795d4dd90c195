use shm_logs::AuditFault;
use shm_model::refusal::{self, Numbered};
use thiserror::Error;

/// Why the journals of all sites aren't those of sites that shared one plain memory.
#[derive(Clone, Copy, Debug, PartialEq, Eq, Error)]
pub enum JournalsFault {
    /// An allocation was refused.
    #[error("out of memory")]
    OutOfMemory,
    /// There isn't one journal for each site, in the order of the sites, of one number of sites and one opening; or they send more
    /// envelopes than there are numbers for.
    #[error("not one set of journals")]
    NotOneSet,
    /// The audit found this cause.
    #[error("{0}")]
    Audit(AuditFault),
}

impl Numbered for JournalsFault {
    ghost use Rattle.shm_audit.specs.Faults.{journals_fault_number};

    ghost number_of = { journals_fault_number };

    fn number(&self) -> u8 {
        match self {
            JournalsFault::OutOfMemory => refusal::OUT_OF_MEMORY,
            JournalsFault::NotOneSet => refusal::LOGS,
            JournalsFault::Audit(cause) => cause.number(),
        }
    }
}
