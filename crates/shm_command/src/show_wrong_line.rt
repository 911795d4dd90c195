//! Shows a wrong line below its fault: the line, where it goes wrong, and what it seems to be.
ghost use Rattle.std.specs.Prelude.{◌≡◌};
ghost use Rattle.shm_command.specs.Status.{fault_status, run_status};

use crate::error_text_and_status;
use crate::recalling_input::Recalls;
use shm_debug::DebugFault;
use shm_lines::{
    Remark, hint_of_access_line, hint_of_first_line, hint_of_script_line, remark_on_script_line,
    remark_on_workload_line, write_hint,
};
use shm_place::{PAGES, Sites};
use shm_report::ReportFault;
use std::io::Write;

/// Tells the fault by which a replay ended, shows a wrong line, and gives the exit status.
pub fn script_fault<I: Recalls, E: Write>(fault: DebugFault, reader: &I, errors: &mut E) -> u8
    ensures status { result ≡ fault_status fault }
{
    let status = error_text_and_status::fault(fault, errors);
    if let DebugFault::BadLine(number) = fault {
        show_script_line(number, reader.recall(number), errors);
    }
    status
}

/// The same for a run over these sites.
pub fn workload_fault<I: Recalls, E: Write>(
    fault: ReportFault,
    sites: Sites,
    reader: &I,
    errors: &mut E,
) -> u8
    ensures status { result ≡ run_status fault }
{
    let wrong = match fault {
        ReportFault::BadLine(number) => Some(number),
        _ => None,
    };
    let status = error_text_and_status::run_fault(fault, errors);
    if let Some(number) = wrong {
        show_workload_line(sites, number, reader.recall(number), errors);
    }
    status
}

fn show_script_line<E: Write>(number: u64, line: Option<&[u8]>, errors: &mut E) {
    let Some(line) = line else {
        return;
    };
    if let Some(hint) = hint_of_script_line(line) {
        let _ = write_hint(errors, line, &hint);
    }
    show_remark(remark_on_script_line(number, line), errors);
}

/// Shows a workload's wrong line. Doesn't look whether an offset is within segment 0.
fn show_workload_line<E: Write>(sites: Sites, number: u64, line: Option<&[u8]>, errors: &mut E) {
    let Some(line) = line else {
        return;
    };
    let hint = if number == 1 {
        hint_of_first_line(line)
    } else {
        hint_of_access_line(sites, PAGES, line)
    };
    if let Some(hint) = hint {
        let _ = write_hint(errors, line, &hint);
    }
    show_remark(remark_on_workload_line(number, line), errors);
}

fn show_remark<E: Write>(remark: Option<Remark>, errors: &mut E) {
    if let Some(remark) = remark {
        let _ = writeln!(errors, "{remark}");
    }
}
