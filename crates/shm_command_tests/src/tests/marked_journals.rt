//! Journals with the marks of their batches.
use shm_batches::{BatchFault, Chain, write_batch};
use std::alloc::Global;

/// The file of these batches, each of which has these lines.
pub(super) fn marked(alloc: Global, batches: &[&[u8]]) -> Result<Vec<u8>, BatchFault> {
    let mut chain = Chain::new();
    let mut file = Vec::new(alloc);
    for lines in batches {
        match write_batch(alloc, &mut file, &mut chain, lines) {
            Ok(_) => {}
            Err(fault) => return Err(fault),
        }
    }
    Ok(file)
}
