//! A page's state at one site, the grants between sites, and what each message about the page does to the state.
//!
//! After Li and Hudak 1989, §3: a site's access to a page is nil, read or write; a page has one owner, and copies where it is read. The
//! owner of a page that others read has no right to write it, and all copies are invalidated before a site may write. A call that changes a
//! state's kind spends the old state, so no program can be written that does what the state doesn't allow.
//!
//! The rows of an entry's table stand in one file for each kind of message, under the message's name: `on_clear`, `on_hand_read`,
//! `on_hand_write`, `on_page_read` and `on_page_write`.
#![tactic(auto)]

mod copy_page;
mod entry;
mod handed_page;
mod lent_copy;
mod nil_page;
mod on_clear;
mod on_hand_read;
mod on_hand_write;
mod on_page_read;
mod on_page_write;
mod outgoing_message;
mod own_read_page;
mod own_write_page;
mod restored_entry;
mod share_bytes;

pub use copy_page::CopyPage;
pub use entry::Entry;
pub use handed_page::{HandedPage, WriteGrant};
pub use lent_copy::ReadGrant;
pub use nil_page::NilPage;
pub use on_clear::clear;
pub use on_hand_read::lend_to;
pub use on_hand_write::hand_to;
pub use on_page_read::take_copy;
pub use on_page_write::take_ownership;
pub use outgoing_message::Out;
pub use own_read_page::OwnReadPage;
pub use own_write_page::OwnWritePage;
