//! Tests of a site's state: its lines, and the site that is made of what they tell.
#![tactic(auto)]

#[cfg(test)]
mod tests;
