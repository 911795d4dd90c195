//! The parts that all programs which print or read share: the text of an answer, the names of states and messages, a text that grows line
//! by line, and reading and writing that try nothing again.
#![tactic(auto)]

mod answer_text;
mod push_numbers_and_answers;
mod read_and_write;
mod reply_text;
mod stat_text;
mod state_and_message_names;
mod text_of_lines;

pub use answer_text::AnswerText;
pub use push_numbers_and_answers::{push_answer, push_number};
pub use read_and_write::{NotWritten, read_up_to, write_whole};
pub use state_and_message_names::{message_name, state_name};
pub use text_of_lines::Text;
