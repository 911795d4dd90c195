//! One site as one step: what it does with each input, what it answers, and what it sends.
//!
//! After Li and Hudak 1989, §3.2 (page faults, the fixed distributed manager), and `shmget(2)`, `shmop(2)`, `shmctl(2)` for segments.
#![tactic(auto)]

mod begin_segment_call;
mod book_view;
mod deliver_envelope;
mod first_site;
mod foreign_envelopes;
mod home_of_segment_call;
mod inspect_access;
mod inspect_page;
mod inspect_pending_requests;
mod loads_and_stores;
mod notes_to_book;
mod notes_to_entry;
mod purge_segment;
mod send_page_orders;
mod serve_segment_call;
mod site;
mod site_input;
mod site_state;
mod step;
mod step_error;
mod step_fault_numbers;
mod step_listing_envelopes;
mod tick_and_restart;

pub use book_view::BookView;
pub use shm_model::Answer;
pub use shm_parts::{BookNote, EntryNote, Envelope, Message, Note, Outbox};
pub use site::Site;
pub use site_input::Input;
pub use step_error::{StepError, StepFault};
pub use step_listing_envelopes::Made;
