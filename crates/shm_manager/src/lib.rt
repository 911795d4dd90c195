//! The manager's book of one page: who owns it, who has copies, which transaction runs and which requests wait
//! (Li and Hudak 1989, §3.2).
#![tactic(auto)]

mod book;
mod manager_messages;
mod request_decision;
mod request_queue;
mod restored_book;
mod transaction_rows;
mod waiting_request;

pub use book::Book;
pub use manager_messages::{MOST_ORDERS, Orders};
pub use request_decision::Due;
pub use shm_model::Kind;
