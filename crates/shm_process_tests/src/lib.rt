//! Tests of sites as processes: their lines, their desks, what they tell and record, and the journals that they keep.
#![tactic(auto)]

#[cfg(test)]
mod tests;
