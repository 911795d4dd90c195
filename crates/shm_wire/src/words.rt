//! Words that other lines share with those of the stream.
pub use crate::display_call_reply::{ReplyWords, StandingWord};
pub use crate::parse_call_reply::reply;
pub use crate::parse_message::page_id;
pub use crate::parse_page::page_bytes;
pub use crate::parse_wire_words::{kind_named, standing, wide};
