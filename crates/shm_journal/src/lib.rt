//! A site's journal: the lines that made its steps, made durable before any answer to them is written, and read again at its start; and the
//! process that keeps it.
#![tactic(auto)]

mod display_state_line;
mod journal_entry;
mod journal_error;
mod journal_header;
mod journal_line_parser;
mod journal_reading;
mod journal_shortening;
mod journal_summary;
mod journal_trait;
pub mod laws;
mod line_read_outcome;
mod line_reader;
mod process_error;
mod process_loop;
mod process_start;
mod recover_site;
mod recovered_site;
mod recovery_error;
mod replay_lines;
mod service_stop;
mod shorten_fault;
mod spelled_part;
mod state_line;
mod state_line_parser;
mod state_telling;
mod summary_reader;

pub use journal_entry::Entry;
pub use journal_error::JournalFault;
pub use journal_header::Header;
pub use journal_line_parser::{parse_entry, parse_header};
pub use journal_shortening::shortened_journal;
pub use journal_summary::Summary;
pub use journal_trait::{Failed, Journal};
pub use line_read_outcome::Taken;
pub use line_reader::{Lines, MAX_LINE_BYTES};
pub use process_error::ProcessFault;
pub use process_loop::serve;
pub use process_start::{OpeningFault, open_desk};
pub use recover_site::recover;
pub use recovered_site::Recovered;
pub use recovery_error::RecoveryFault;
pub use replay_lines::{Replay, replay_rest};
pub use service_stop::Stop;
pub use shorten_fault::ShortenFault;
pub use state_line::{Ending, StateLine};
pub use state_line_parser::parse_state_line;
pub use summary_reader::read_summary;
