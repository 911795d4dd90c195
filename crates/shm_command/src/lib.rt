//! What the command `shmdbg` does: words, an input and outputs come in, and the exit status goes out. It replays and draws scripts, answers
//! at the prompt, runs a workload on sites in threads, simulates one, runs a site as a process, audits journals, and summarises one.
#![tactic(auto)]

mod args;
mod audit_failure;
mod audit_files;
mod closed_standard_streams;
mod disk_save_file;
mod dispatch_command;
mod draw_command;
mod elapsed_time;
mod error_text_and_status;
mod file_summary;
mod journal_backends;
mod journal_place;
mod journal_row;
mod journal_startup;
mod journal_summary;
mod line_of_step;
mod log_source;
mod outcome_scripts;
mod process_entry;
mod read_seal;
mod recalling_input;
mod renew_journal;
mod replay_command;
mod replayed_steps_notice;
mod run_report;
mod save_run_logs;
mod script_file;
mod script_file_error;
mod seal_error;
mod serve_site;
mod serve_stretches;
mod shorten_journal;
mod shortened_notice;
mod shortening_error;
mod show_wrong_line;
mod simulation_report;
mod site_error;
mod whole_journal;

pub use args::{SealWords, Shortening, Simulation, Task, parse_words};
pub use dispatch_command::run_words;
pub use journal_backends::JournalFile;
pub use journal_place::{Place, Renewed};
pub use journal_startup::Lock;
pub use outcome_scripts::save_outcome_scripts;
pub use process_entry::run_process;
pub use recalling_input::{Recalls, Source};
pub use save_run_logs::save_logs;
pub use serve_stretches::serve_kept;
pub use shortening_error::ShorteningFault;
pub use show_wrong_line::{script_fault, workload_fault};
pub use site_error::SiteFault;
