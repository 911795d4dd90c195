//! Numbers that tell a repeat from something new: the greatest request number of each site, the last reply to each site, and counters.
#![tactic(auto)]

mod counter;
mod kept_reply;
mod served;
#[cfg(test)]
mod tests;

pub use counter::{Counter, Number, UsedUp};
pub use kept_reply::{KeptReply, Recall};
pub use served::Served;
