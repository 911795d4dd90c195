//! What sites and callers say to each other on one stream, as lines of text.
//!
//! - An envelope, with where it was sent: `env FROM TO CLOCK INDEX PLACE KIND ..`. A page's bytes are base64.
//! - What a caller asks of a site: `ask SITE TAG`, and what a script's line says, less the site; or, in words that no script has, an access
//!   that is tried once (`try-load`, `try-store`), a block that is read or written, whose bytes are base64, or a page that is mapped into a
//!   machine's memory, given up, or brought (`map`, `unmap`, `sync`, `mappings`).
//! - What a caller is answered: `tell SITE TAG TEXT`.
//!
//! Each has one spelling: what is printed is read back equal, and nothing else is read. No line is two of the three. A line stands without its line feed.
#![tactic(auto)]

mod answer_line;
mod block_write;
mod caller_ask;
mod caller_tag;
mod display_call_reply;
mod display_envelope;
pub mod laws;
mod mapping_text;
mod parse_answer;
mod parse_ask;
mod parse_base64;
mod parse_block_write;
mod parse_call_reply;
mod parse_message;
mod parse_page;
mod parse_unmap;
mod parse_wire_words;
mod sent_envelope;
mod stream_line;
mod stream_line_parser;
mod unmap_ask;
pub mod words;

pub use answer_line::{BlockText, TellLine};
pub use block_write::WriteAsk;
pub use caller_ask::{Ask, Question};
pub use caller_tag::Tag;
pub use mapping_text::{MappedText, Mapping, MappingsText, RevokeText};
pub use parse_answer::parse_tell_line;
pub use sent_envelope::{Sent, SentLine, Source};
pub use stream_line::Line;
pub use stream_line_parser::parse_line;
pub use unmap_ask::{Run, UnmapAsk};
