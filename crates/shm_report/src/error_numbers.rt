//! The numbers of a report's faults.
use crate::report_error::ReportFault;
use shm_model::refusal::{self, Numbered};

impl Numbered for ReportFault {
    ghost use Rattle.shm_report.specs.Numbers.{report_fault_number};

    ghost number_of = { report_fault_number };

    fn number(&self) -> u8 {
        match self {
            ReportFault::OutOfMemory => refusal::OUT_OF_MEMORY,
            ReportFault::BadLine(_) => refusal::BAD_LINE,
            ReportFault::LineTooLong(_) => refusal::LINE_TOO_LONG,
            ReportFault::TooManyLines => refusal::TOO_MANY_LINES,
            ReportFault::ReadFault => refusal::READ_FAULT,
            ReportFault::WriteFault => refusal::WRITE_FAULT,
            ReportFault::NoThread => refusal::NO_THREAD,
            ReportFault::GaveUp(_) => refusal::GAVE_UP,
            ReportFault::ClockEnd => refusal::CLOCK_END,
            ReportFault::Logs => refusal::LOGS,
            ReportFault::Audit(cause) => cause.number(),
        }
    }
}
