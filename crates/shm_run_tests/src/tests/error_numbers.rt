//! The one table of refusals: what each fault is told by.
use shm_attach::Denied;
use shm_debug::{BackFault, DebugFault};
use shm_keys::GetFault;
use shm_lines::WorkloadFault;
use shm_model::{Errno, Numbered};
use shm_number::UsedUp;
use shm_place::{NoSuchSite, SiteId};
use shm_report::{CallFault, ReportFault, RunFault};
use shm_site::StepFault;
use shm_sites::{AuditFault, BoxFault, ClientFault, StartFault};
use std::alloc::AllocError;

const SITE: SiteId = SiteId(3);

const UNTOLD: AuditFault = AuditFault::Untold {
    site: SITE,
    index: 4,
};

/// The numbers of the system's errors, in the order of their names.
#[test]
fn the_errors_of_the_system(rt: HostRuntime) {
    let errors = [
        Errno::Eacces,
        Errno::Eexist,
        Errno::Eidrm,
        Errno::Einval,
        Errno::Enoent,
        Errno::Enospc,
        Errno::Eperm,
    ];
    assert_eq!(rt; errors.map(|error| error.number()), [1, 2, 3, 4, 5, 6, 7]);
    assert_eq!(rt;
        errors.map(|error| GetFault::Refused(error).number()),
        [1, 2, 3, 4, 5, 6, 7]
    );
}

/// What a site, a world, a box and a session refuse.
#[test]
fn what_is_refused_to_an_event(rt: HostRuntime) {
    let told = [
        Denied::NoAttachment.number(),
        Denied::ReadOnly.number(),
        Denied::OutOfSegment.number(),
        UsedUp.number(),
        NoSuchSite.number(),
        StepFault::Foreign.number(),
        BoxFault::Foreign.number(),
        BoxFault::ClockEnd.number(),
        BackFault::PastBeginning.number(),
    ];
    assert_eq!(rt; told, [9, 10, 11, 13, 14, 16, 16, 27, 28]);
}

/// Want of memory has one number wherever it is told.
#[test]
fn want_of_memory(rt: HostRuntime) {
    let call = CallFault {
        place: 5,
        fault: ClientFault::OutOfMemory,
    };
    let told = [
        AllocError.number(),
        GetFault::OutOfMemory.number(),
        StepFault::OutOfMemory.number(),
        BoxFault::OutOfMemory.number(),
        AuditFault::OutOfMemory.number(),
        StartFault::OutOfMemory.number(),
        ClientFault::OutOfMemory.number(),
        call.number(),
        RunFault::OutOfMemory.number(),
        RunFault::Start(StartFault::OutOfMemory).number(),
        RunFault::Call(call).number(),
        WorkloadFault::OutOfMemory.number(),
        BackFault::OutOfMemory.number(),
        DebugFault::OutOfMemory.number(),
        ReportFault::OutOfMemory.number(),
    ];
    assert_eq!(rt; told, [17; 15]);
}

/// Why a script isn't replayed, and a workload isn't read.
#[test]
fn what_ends_a_reading(rt: HostRuntime) {
    let told = [
        DebugFault::BadLine(2).number(),
        DebugFault::LineTooLong(2).number(),
        DebugFault::TooManyLines.number(),
        DebugFault::ReadFault.number(),
        DebugFault::WriteFault.number(),
        WorkloadFault::BadLine(2).number(),
        WorkloadFault::LineTooLong(2).number(),
        WorkloadFault::TooManyLines.number(),
    ];
    assert_eq!(rt; told, [18, 19, 20, 21, 22, 18, 19, 20]);
}

/// Why a workload isn't reported.
#[test]
fn what_ends_a_report(rt: HostRuntime) {
    let told = [
        ReportFault::BadLine(2).number(),
        ReportFault::LineTooLong(2).number(),
        ReportFault::TooManyLines.number(),
        ReportFault::ReadFault.number(),
        ReportFault::WriteFault.number(),
        ReportFault::Audit(UNTOLD).number(),
    ];
    assert_eq!(rt; told, [18, 19, 20, 21, 22, 30]);
}

const UNSENT: AuditFault = AuditFault::Unsent {
    site: SITE,
    index: 4,
};

const STAMP_ORDER: AuditFault = AuditFault::StampOrder {
    site: SITE,
    index: 4,
};

const FORGED: AuditFault = AuditFault::Forged {
    site: SITE,
    index: 4,
};

/// What an audit finds.
#[test]
fn what_an_audit_finds(rt: HostRuntime) {
    let told = [
        UNSENT.number(),
        STAMP_ORDER.number(),
        FORGED.number(),
        UNTOLD.number(),
    ];
    assert_eq!(rt; told, [23, 24, 25, 30]);
}

/// Why a run doesn't end well before its audit.
#[test]
fn what_ends_a_run(rt: HostRuntime) {
    let gave_up = CallFault {
        place: 5,
        fault: ClientFault::GaveUp,
    };
    assert_eq!(rt;
        [
            gave_up.number(),
            RunFault::Call(gave_up).number(),
            ReportFault::GaveUp(7).number()
        ],
        [26; 3]
    );
    assert_eq!(rt;
        [
            ClientFault::ClockEnd.number(),
            ReportFault::ClockEnd.number()
        ],
        [27; 2]
    );
    let no_thread = StartFault::NoThread;
    assert_eq!(rt;
        [
            no_thread.number(),
            RunFault::Start(no_thread).number(),
            ReportFault::NoThread.number()
        ],
        [29; 3]
    );
    assert_eq!(rt;
        [RunFault::Logs.number(), ReportFault::Logs.number()],
        [31; 2]
    );
}
