use crate::members::Members;
use crate::network::Network;
use std::alloc::{Allocator, Global};

/// All sites, and the network between them.
#[derive(Drop)]
pub struct World<A: Allocator + Copy = Global> {
    pub(crate) members: Members<A>,
    pub(crate) network: Network<A>,
    pub(crate) alloc: A,
}
