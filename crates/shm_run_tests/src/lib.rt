//! Tests of workloads, of running them in threads, of the reports, and of the one table of refusals; of a world that is brought to
//! rest; of the pictures; and of dialogs of the prompt.
#![tactic(auto)]

#[cfg(test)]
mod tests;
