ghost use Rattle.std.specs.Prelude.{◌≡◌, false, true};
ghost use Rattle.shm_model.specs.Access as model;
ghost use Rattle.shm_attach.specs.Attachments.{attachments_of, segment_of};
ghost use Rattle.shm_parts.specs.Reached.{page_reached};

use crate::holdings::Holdings;
use shm_attach::right;
use shm_place::{PageId, SegId};
use std::alloc::Allocator;

impl<A: Allocator + Copy> Holdings<A> {
    /// The segment that is attached at the number.
    pub fn segment(&self, number: u32) -> Option<SegId>
        ensures { result ≡ segment_of (attachments_of self.now.attachments number) }
    {
        self.attachments.segment(number)
    }

    /// The page that a load at this offset goes to. None: it is refused (`shmop(2)`).
    pub fn reached(&self, number: u32, offset: u32) -> Option<PageId>
        ensures { result ≡ page_reached (model.right (attachments_of self.now.attachments) number offset false) }
    {
        match right(&self.attachments, number, offset, false) {
            Ok((page, _)) => Some(page),
            Err(_) => None,
        }
    }

    /// The page that a store at this offset goes to. None: it is refused (`shmop(2)`).
    pub fn reached_to_store(&self, number: u32, offset: u32) -> Option<PageId>
        ensures { result ≡ page_reached (model.right (attachments_of self.now.attachments) number offset true) }
    {
        match right(&self.attachments, number, offset, true) {
            Ok((page, _)) => Some(page),
            Err(_) => None,
        }
    }
}
