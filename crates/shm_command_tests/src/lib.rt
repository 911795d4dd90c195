//! Tests of what the command `shmdbg` does: its words, its streams and the files that it reads and leaves.
#![tactic(auto)]

#[cfg(test)]
mod tests;
