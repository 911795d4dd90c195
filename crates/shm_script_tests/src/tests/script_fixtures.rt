//! Scripts with what is told of them, worked by hand from the rules. Each stands here once, and several tests play it.

pub mod frames;
pub mod going_back;
pub mod losses;
pub mod pages;
pub mod purges;
pub mod segments;

/// A script that is replayed to its end.
#[derive(Clone, Copy)]
pub struct Script {
    pub name: &'static str,
    /// Its lines.
    pub input: &'static [u8],
    /// What is told of its lines.
    pub text: &'static [u8],
    /// How many lines it has.
    pub lines: u64,
    /// How many of its events stand at its end.
    pub events: u64,
    /// How many messages were sent in those events.
    pub sent: u64,
}
