//! Tests of one site and of what it is made of: pages, managers' books, segment calls, attachments; of the network between sites; and of
//! boxes and their logs: the logs' one order, and what the audit says of them.
#![tactic(auto)]

#[cfg(test)]
mod tests;
