//! Runs a workload from a reader over sites in threads, with a caller in a thread of its own for each site, audits the logs, and only then
//! writes the answer to each line.
#![tactic(auto)]

mod audited_run;
mod audited_text;
mod call_and_run_error;
mod caller_threads;
mod count_run;
mod display_counts;
mod error_numbers;
mod log_lines;
mod order_run_steps;
mod read_input;
mod refused_run;
mod report_error;
mod report_text;
mod report_workload;
mod run_counts;
mod site_caller;
mod workload_outcome;
mod workload_run;

pub use audited_run::Audited;
pub use call_and_run_error::{CallFault, RunFault};
pub use log_lines::log_text;
pub use refused_run::Refused;
pub use report_error::ReportFault;
pub use report_workload::{read_workload, report, run_audited};
pub use run_counts::Counts;
pub use workload_outcome::Ran;
pub use workload_run::run_workload;
