//! A site's state as lines of text: `state`, what the part is, and its fields. A page's bytes are base64.
//!
//! Each part has one spelling: what is printed is read back equal, and nothing else is read. A line stands without its line feed, and none is
//! also a line of the stream.
//!
//! A site is made of its parts, as they are told one after another in their order.
#![tactic(auto)]

mod display_book;
mod display_entry;
mod display_part;
mod display_set;
pub mod laws;
mod parse_book;
mod parse_entry;
mod parse_plain_part;
mod parse_set;
mod part;
mod part_line_parser;
mod site_of_parts;
mod take_fault;
mod take_home_part;
mod take_page_part;
mod tell_calls;
mod tell_fault;
mod tell_pages;
mod tell_part;
mod tell_state;
mod told_page;
mod told_stage;
mod told_state;

pub use part::{BookPart, EntryPart, Part};
pub use part_line_parser::parse_part;
pub use site_of_parts::Unfinished;
pub use take_fault::TakeFault;
pub use tell_fault::TellFault;
pub use tell_state::tell_parts;
pub use told_stage::Stage;
pub use told_state::Told;
