//! The parts of a site: messages and the outbox, page entries with the attachments that reach them, managers' books, and the pending
//! requests.
#![tactic(auto)]

mod access_outcome;
mod attach_and_detach;
mod book_outcome;
mod books;
mod change_one_book;
mod change_one_entry;
mod entry_change;
mod first_holdings;
mod forget_or_copy_books;
mod frame_order;
mod holdings;
mod inspect_holdings;
mod likely_entry_places;
mod loads_and_stores;
mod message;
mod notes_to_entries;
mod ordered_pages;
mod ordered_pages_iterator;
mod outbox;
mod page_entries;
mod page_envelopes;
mod page_map_helpers;
mod page_vector_helpers;
mod pages_by_place;
mod pages_with_books;
mod pending_requests;
mod purge_segment;
mod purged_segments;
mod reached_segment_and_page;
mod read_holdings;
mod restore_holdings;
mod stored_entry_and_book;

pub use access_outcome::{LoadOutcome, StoreOutcome};
pub use book_outcome::Outcome;
pub use books::Books;
pub use entry_change::Change;
pub use frame_order::Frames;
pub use holdings::Holdings;
pub use message::{BookNote, EntryNote, Envelope, Message, Note};
pub use ordered_pages_iterator::PagesInOrder;
pub use outbox::Outbox;
pub use page_entries::Entries;
pub use page_envelopes::{to_manager, to_site};
pub use pending_requests::Pendings;
pub use purged_segments::Purged;
