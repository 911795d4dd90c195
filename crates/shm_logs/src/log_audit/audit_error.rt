use shm_model::refusal::{self, Numbered};
use shm_place::SiteId;
use thiserror::Error;

/// Why logs and receipts can't be those of sites that ran, with the site and the index of the step. Only `OutOfMemory` says nothing of
/// them.
#[derive(Clone, Copy, Debug, PartialEq, Eq, Error)]
pub enum AuditFault {
    /// The step was handed an envelope that the log of its sender doesn't have where the delivery says.
    #[error("unsent {} {index}", .site.0)]
    Unsent { site: SiteId, index: usize },
    /// The step's stamp isn't above that of the step before it in its log, or of the step that sent what it was handed.
    #[error("stamp order {} {index}", .site.0)]
    StampOrder { site: SiteId, index: usize },
    /// A receipt names this step, and it isn't in the log, has another access or answer, or was named before; or an earlier receipt of the
    /// caller names a later step of the site.
    #[error("forged {} {index}", .site.0)]
    Forged { site: SiteId, index: usize },
    /// No receipt names this step, which was answered a byte, or that it stored, where the receipts claim to be all.
    #[error("untold {} {index}", .site.0)]
    Untold { site: SiteId, index: usize },
    /// Memory was refused.
    #[error("out of memory")]
    OutOfMemory,
}

impl Numbered for AuditFault {
    ghost use Rattle.shm_logs.specs.Auditing.Cause.{audit_fault_number};

    ghost number_of = { audit_fault_number };

    fn number(&self) -> u8 {
        match self {
            AuditFault::Unsent { .. } => refusal::UNSENT,
            AuditFault::StampOrder { .. } => refusal::STAMP_ORDER,
            AuditFault::Forged { .. } => refusal::FORGED,
            AuditFault::Untold { .. } => refusal::UNTOLD,
            AuditFault::OutOfMemory => refusal::OUT_OF_MEMORY,
        }
    }
}
