//! Tests of worlds, of lines, texts and sessions, and of whole scripts: what is told of them, scripts that are refused, sites that restart,
//! readers and writers that fail, and memory that is refused.
#![tactic(auto)]

#[cfg(test)]
mod tests;
