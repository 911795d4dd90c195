//! Bytes that a caller asks to be stored.
use crate::caller_tag::Tag;
use base64::display::Base64Display;
use base64::engine::general_purpose::STANDARD;
use shm_place::SiteId;
use std::alloc::{Allocator, Global};
use std::fmt;

/// As many stores as there are bytes, the first at `offset` and the others at the offsets behind it: 1 to 4,096, the last offset below 2 to
/// the 32. Each store waits for its right; they are answered once.
#[derive(Drop)]
pub struct WriteAsk<A: Allocator + Copy = Global> {
    pub site: SiteId,
    pub tag: Tag,
    pub at: u32,
    pub offset: u32,
    pub bytes: Vec<u8, A>,
}

impl<A: Allocator + Copy> fmt::Display for WriteAsk<A> {
    ghost use Rattle.std.specs.Prelude.{Some};
    ghost use Rattle.shm_wire.specs.WriteOf.{write_of};
    ghost use Rattle.shm_wire.specs.Writes.{write_line};

    ghost output = { λ write. Some (write_line (write_of write)) };

    /// The ask's line, without a line feed.
    fn fmt<W: fmt::Write>(&self, f: &mut fmt::Formatter<W>) -> fmt::Result {
        let site = self.site.0;
        let tag = self.tag;
        let at = self.at;
        let offset = self.offset;
        let bytes = Base64Display::new(self.bytes.as_slice(), &STANDARD);
        write!(f, "ask {site} {tag} write {at} {offset} {bytes}")
    }
}
