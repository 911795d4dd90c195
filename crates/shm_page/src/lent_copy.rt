ghost use Rattle.std.specs.Prelude.{◌≡◌, length, IfOk};
ghost use Rattle.shm_place.specs.Limits.{page_bytes};
ghost use Rattle.shm_page.specs.State.{grant_of};

use bytes::Bytes;
use std::alloc::{AllocError, Allocator, Global};
use std::marker::Model;

/// A copy of a page on its way to a site that asked to read: its bytes as the owner had them when it lent them.
#[derive(Drop)]
pub struct ReadGrant<A: Allocator + Copy = Global> {
    number: u64,
    bytes: Bytes<A>,
}

impl<A: Allocator + Copy> Model for ReadGrant<A> {
    ghost use Rattle.std.specs.Prelude.{◌≡◌, length};
    ghost use Rattle.shm_place.specs.Limits.{page_bytes};
    ghost use Rattle.shm_page.specs.State.{GrantView};

    ghost Value = { GrantView };

    ghost view = { λ grant. record { number = grant.number; bytes = grant.bytes } };

    ghost invariant = { λ grant. length grant.bytes ≡ page_bytes };
}

impl<A: Allocator + Copy> ReadGrant<A> {
    /// A grant of these shared bytes.
    pub(crate) fn of(number: u64, shared: &Bytes<A>) -> Result<ReadGrant<A>, AllocError>
        requires { length shared.now ≡ page_bytes }
        ensures { IfOk result (λ grant. grant ≡ grant_of number shared.now) }
    {
        let bytes = shared.clone()?;
        Ok(ReadGrant::holding(number, bytes))
    }

    /// A grant that holds these bytes.
    pub(crate) fn holding(number: u64, bytes: Bytes<A>) -> ReadGrant<A>
        requires { length bytes ≡ page_bytes }
        ensures { result ≡ grant_of number bytes }
    {
        ReadGrant { number, bytes }
    }

    /// The transaction's number.
    pub fn number(&self) -> u64
        ensures { result ≡ self.now.number }
    {
        self.number
    }

    /// The page's bytes.
    pub fn bytes(&self) -> &[u8]
        ensures { result.now ≡ self.now.bytes }
    {
        self.bytes.as_slice()
    }

    /// The page's bytes, to be kept.
    pub(crate) fn into_bytes(self) -> Bytes<A>
        ensures value { result ≡ self.bytes }
        ensures whole { length result ≡ page_bytes }
    {
        let ReadGrant { number: _, bytes } = self;
        bytes
    }

    /// An equal grant, as a network makes one when it hands a message over twice.
    pub fn copy(&self) -> Result<ReadGrant<A>, AllocError>
        ensures { IfOk result (λ grant. grant ≡ self.now) }
    {
        let bytes = self.bytes.clone()?;
        Ok(ReadGrant {
            number: self.number,
            bytes,
        })
    }
}
