//! The segments of one home, as a Linux user knows them: made and found by key, attached, removed, changed and described (`shmget(2)`,
//! `shmop(2)`, `shmctl(2)`), and which sites still have to purge the destroyed ones.
#![tactic(auto)]

mod copy_table;
mod pending_purge;
mod permission;
mod preset_segment;
mod purge_messages;
mod replace_segment;
mod restored_table;
mod segment_calls;
mod segment_record;
mod segment_table;
mod shmget;

pub use segment_record::Segment;
pub use segment_table::SegTable;
pub use shm_model::{Attached, Cred, Errno, GetFlags, Mode, Stat};
pub use shmget::{GetFault, MAX_LIVE};
