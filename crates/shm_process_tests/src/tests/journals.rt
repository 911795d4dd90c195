mod audits;
mod process_loop;
mod recovery;

use std::alloc::{AllocError, Global};

/// These bytes, and behind them so many letters without a line feed.
fn unended(alloc: Global, front: &[u8], letters: usize) -> Result<Vec<u8>, AllocError> {
    let mut bytes = Vec::from_slice(alloc, front)?;
    for _ in 0..letters {
        bytes.push(b'a')?;
    }
    Ok(bytes)
}
