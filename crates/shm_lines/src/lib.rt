//! Reads and spells the lines of a debugger's script, reads the lines of a workload, and has the words of a segment call, which are the same
//! everywhere.
#![tactic(auto)]

mod display_first_line;
mod display_flags;
mod display_script_line;
mod display_segment_calls;
mod hints;
pub mod laws;
mod parse_flags;
mod parse_number;
mod parse_segment_calls;
mod parse_workload_line;
mod script_line;
mod script_line_parser;
mod split_words;
mod workload;
mod workload_access;
mod workload_error;

pub use display_flags::{AccessWord, FlagsWord};
pub use display_segment_calls::{CallWords, RequestWords};
pub use hints::{
    Expected, Hint, RecallingReader, Remark, Word, hint_of_access_line, hint_of_first_line,
    hint_of_script_line, remark_on_script_line, remark_on_workload_line, write_hint,
};
pub use parse_number::wide_number;
pub use parse_segment_calls::{parse_call, parse_request};
pub use script_line::Line;
pub use script_line_parser::{BadLine, parse_line};
pub use split_words::{Words, split_at};
pub use workload::{Workload, parse_workload};
pub use workload_access::WorkloadAccess;
pub use workload_error::WorkloadFault;
