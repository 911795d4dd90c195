mod mapped_lines;
mod seal_digests;
mod wire;

use shm_wire::parse_line;
use std::alloc::{AllocError, Global};

/// Whether a site reads this as a line.
fn is_line(alloc: Global, text: &[u8]) -> Result<bool, AllocError> {
    Ok(parse_line(alloc, text)?.is_some())
}
