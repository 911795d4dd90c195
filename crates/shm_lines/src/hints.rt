//! Explains a wrong line: where it goes wrong, what could stand there, and what the line seems to be. Has a reader that remembers the lines
//! that it gave last.

mod expected_word;
mod hint;
mod hint_writer;
mod line_remarks;
mod read_words;
mod recalling_reader;
mod remark;
mod remembered_lines;
mod script_line_hints;
mod word_prefix;
mod words_after_verb;
mod workload_line;
mod workload_line_hints;

pub use expected_word::{Expected, Word};
pub use hint::Hint;
pub use hint_writer::write_hint;
pub use line_remarks::{remark_on_script_line, remark_on_workload_line};
pub use recalling_reader::RecallingReader;
pub use remark::Remark;
pub use script_line_hints::hint_of_script_line;
pub use workload_line_hints::{hint_of_access_line, hint_of_first_line};
