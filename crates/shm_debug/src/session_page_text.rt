//! Shows a page of a session.
ghost use Rattle.std.specs.Prelude.{◌≡◌, IfOk};
ghost use Rattle.shm_debug.specs.Standing.{world_of};
ghost use Rattle.shm_debug.specs.Page.{page_text};

use crate::printed_text::print_page;
use crate::session::Session;
use shm_place::PageId;
use std::alloc::{AllocError, Allocator};

impl<A: Allocator + Copy> Session<A> {
    /// The text of a page: how each site holds it, and its manager's book (Li and Hudak 1989, §3.2). Refuses a page outside the limits.
    pub fn show(&self, page: PageId) -> Result<Vec<u8, A>, AllocError>
        ensures { IfOk result (λ text. text.items ≡ page_text (world_of self.now) page) }
    {
        print_page(self.alloc, self.world(), page)
    }
}
