//! The debugger's session for people at a terminal. It answers each line before it reads the next, and goes on after a wrong line.
#![tactic(auto)]

mod deliver_all;
mod dialog_state;
mod envelopes_in_flight;
mod file_name;
mod help_text;
mod last_change;
mod line_assembler;
mod note_command;
mod note_text;
mod obey_command;
mod open_script;
mod output_line;
mod pages_table;
mod plain_text;
mod prompt_command;
mod prompt_error;
mod prompt_loop;
mod read_refusal;
mod refusal_words;
mod save_file_trait;
mod save_refusal;
mod saved_script_text;
mod script_line_act;
mod script_notes;
mod segments_table;
mod spell_saved_line;
mod undo_command;
mod unsaved_changes;
mod waiting_sites;
mod write_named_file;
mod wrong_line_hints;

pub use dialog_state::Dialog;
pub use prompt_command::{Command, parse_command};
pub use prompt_error::PromptFault;
pub use prompt_loop::prompt;
pub use read_refusal::ReadRefusal;
pub use save_file_trait::SaveFile;
pub use save_refusal::SaveRefusal;
pub use saved_script_text::saved_script;
