//! Batches of a journal's lines. Behind each stands a mark with its number and a digest, so that a reader can tell what is whole.
#![tactic(auto)]

mod batch_error;
mod batch_writer;
mod chain;
mod extent;
mod front;
pub mod laws;
mod section;
mod unmarked_reader;

pub use batch_error::BatchFault;
pub use batch_writer::write_batch;
pub use chain::{Chain, Mark};
pub use extent::Extent;
pub use front::measure;
pub use unmarked_reader::UnmarkedReader;
