//! Growths that are refused: in a heap that is full but for one hole, which is widened until it is large enough.

mod checkpoints;
mod lines;
mod whole_script;

use linked_list_allocator::LocalHeap;
use shm_debug::Session;
use shm_place::{PageId, SegId};
use std::alloc::{AllocError, Global};
use std::process::Abort;

/// The page that a session shows after it was refused memory.
const PAGE: PageId = PageId {
    seg: SegId(0),
    index: 0,
};

/// How many bytes a page takes.
const PAGE_BYTES: usize = 4096;

/// How many events of a session stand, and what it shows.
#[derive(Drop)]
struct Before {
    standing: u64,
    shown: Vec<u8>,
}

impl Before {
    fn new(alloc: Global, session: &Session<&LocalHeap>) -> Result<Before, AllocError> {
        let shown = session.show(PAGE)?;
        Ok(Before {
            standing: session.len(),
            shown: shown.as_slice().to_vec(alloc)?,
        })
    }

    /// The session is as it was.
    fn expect_same(
        &self,
        rt: &impl Abort,
        session: &Session<&LocalHeap>,
    ) -> Result<(), AllocError> {
        let shown = session.show(PAGE)?;
        assert_eq!(rt; shown.as_slice(), self.shown.as_slice());
        assert_eq!(rt; session.len(), self.standing);
        Ok(())
    }
}
