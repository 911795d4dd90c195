//! The theorems about Leddwyfan's definitions: each is the contract of a function without parameters and with an empty body.
#![tactic(auto)]

mod calls;
mod logs;
mod memory;
mod promise;
pub mod random_scripts;
mod runs;
mod transactions;
pub mod worked_scripts;

pub use calls::{
    attachments_are_counted, each_call_is_executed_once, homes_keep_their_part,
    nothing_alive_is_purged,
};
pub use logs::{logs_have_one_order, merged_logs_are_a_run};
pub use memory::every_run_is_legal_and_coherent;
pub use promise::every_run_keeps_the_promise;
pub use runs::{runs_go_on, sites_run_on_their_own_inputs};
pub use transactions::{
    bytes_are_the_last_stored, copies_are_invalidated_first, numbers_tell_what_is_late,
    readers_are_known,
};
