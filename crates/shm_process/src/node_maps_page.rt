//! What is answered to a map.
ghost use Rattle.std.specs.Prelude.{◌≡◌, string_bytes, IfOk};
ghost use Rattle.shm_process.specs.Desk.{map_reply};
ghost use Rattle.shm_process.specs.NodeOf.{node_of};

use crate::byte_place::byte_place;
use crate::node::Node;
use shm_wire::MappedText;
use std::alloc::{AllocError, Allocator};

impl<A: Allocator + Copy> Node<A> {
    /// The answer to a map whose right is there: `mapped`, and the page's bytes, unless the machine has them.
    pub(crate) fn map_reply(&self, at: u32, index: u32) -> Result<String<A>, AllocError>
        ensures { IfOk result (λ text. string_bytes text ≡ map_reply (node_of self.now) at index) }
    {
        if self.mapped_there(at, byte_place(index, 0)).is_some() {
            return format!(in self.alloc; "mapped");
        }
        let bytes = self.bytes_there(at, index)?;
        let text = MappedText(bytes.as_slice());
        format!(in self.alloc; "{text}")
    }
}
