use crate::handed_page::WriteGrant;
use crate::lent_copy::ReadGrant;
use shm_place::SiteId;
use std::alloc::{Allocator, Global};

/// What a site sends when a message met its entry of a page.
#[derive(Drop)]
pub enum Out<A: Allocator + Copy = Global> {
    /// The message was ignored.
    Nothing,
    /// To the manager: the site has given the page up for this transaction.
    Cleared(u64),
    /// To the manager: this transaction's right is here.
    Confirm(u64),
    /// To the site that asked to read.
    Read(SiteId, ReadGrant<A>),
    /// To the site that asked to write.
    Write(SiteId, WriteGrant<A>),
}
