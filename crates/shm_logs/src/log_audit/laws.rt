//! Laws of logs and of causes: each is the contract of a function that does nothing.
ghost use Rattle.std.specs.Prelude.{◌≡◌, List};
ghost use Rattle.shm_model.specs.declared.event.Event.{Event};
ghost use Rattle.shm_model.specs.Log.{Logged, LogsFit};
ghost use Rattle.shm_model.specs.Receipt.{Receipt};
ghost use Rattle.shm_model.specs.World.{Opening, Preset};
ghost use Rattle.shm_logs.specs.Auditing.Audit.{IsAudited};
ghost use Rattle.shm_logs.specs.Auditing.Cause.{IsFirstCause};
ghost use Rattle.shm_logs.specs.Auditing.Complete.{AllTold, IsFirstCauseOfAll};
ghost use Rattle.shm_logs.specs.Auditing.Logs.{logs_of, AreLogsOf};
ghost use Rattle.shm_logs.specs.declared.log_audit.audit_error.AuditFault.{AuditFault};

use crate::site_boxes::SiteLog;
use shm_place::Sites;
use std::alloc::Allocator;

/// Logs of one set of sites fit: each is that of a site which began with segment 0 attached.
pub fn matching_logs_fit<A: Allocator + Copy>(sites: Sites, pages: u32, logs: &[SiteLog<A>])
    requires { AreLogsOf sites pages logs.now }
    ensures { LogsFit (Preset sites pages) (logs_of logs.now) }
{}

/// Logs and receipts have at most one first cause.
pub fn first_causes_are_one()
    ensures { (logs : List (List Logged)) (callers : List (List Receipt)) (one other : AuditFault) → IsFirstCause logs callers one
        → IsFirstCause logs callers other → one ≡ other }
{}

/// Where an audit answers events, there is no cause.
pub fn what_is_audited_has_no_cause()
    ensures { (o : Opening) (logs : List (List Logged)) (callers : List (List Receipt)) (events : List Event) (cause : AuditFault)
        → IsAudited o logs callers events → ¬ IsFirstCause logs callers cause }
{}

/// Logs, and receipts that claim to be all, have at most one first cause.
pub fn first_causes_of_all_are_one()
    ensures { (logs : List (List Logged)) (callers : List (List Receipt)) (one other : AuditFault) → IsFirstCauseOfAll logs callers one
        → IsFirstCauseOfAll logs callers other → one ≡ other }
{}

/// Where a complete audit answers events, there is no such cause.
pub fn what_is_audited_whole_has_no_cause()
    ensures { (o : Opening) (logs : List (List Logged)) (callers : List (List Receipt)) (events : List Event) (cause : AuditFault)
        → IsAudited o logs callers events → AllTold logs callers → ¬ IsFirstCauseOfAll logs callers cause }
{}
