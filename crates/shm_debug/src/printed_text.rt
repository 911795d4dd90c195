//! The debugger's texts: of an answer, of the envelopes that were sent, and of a page. Each text is that of the definitions' world.

mod answer_and_page_bytes;
mod answer_and_page_lines;
mod copies;
mod envelopes_in_flight;
mod page;

pub use answer_and_page_bytes::{print_answer, print_page};
pub use answer_and_page_lines::{tell_answer_line, tell_page_line, write_answer};
pub use copies::tell_copies;
pub use page::tell_manager;
