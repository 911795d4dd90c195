//! How a line shows whose it is: a cluster's name behind it and, under a key, a digest of both.
//!
//! A sealed line is the line, then ` @NAME` and, under a key, a blank and 64 hexadecimal digits: HMAC-SHA-256 (RFC 2104, FIPS 198-1) of all
//! that stands before that blank. What is opened is exactly what was sealed so.
#![tactic(auto)]

mod cluster_name;
mod hmac;
mod key;
pub mod laws;
mod open_line_error;
mod seal;

pub use cluster_name::ClusterName;
pub use key::Key;
pub use open_line_error::Unsealed;
pub use seal::Seal;
