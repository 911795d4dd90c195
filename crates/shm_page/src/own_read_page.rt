ghost use Rattle.std.specs.Prelude.{◌≡◌, ◌<◌, ◌≤◌, ◌+◌, [], length, slice_index, vec_capacity, vec_len, IfOk, IfErr, OnOk, OnErr};
ghost use Rattle.shm_place.specs.Limits.{page_bytes};
ghost use Rattle.shm_page.specs.State.{page_of, handed_of, grant_of};

use crate::handed_page::{HandedPage, WriteGrant};
use crate::lent_copy::ReadGrant;
use crate::own_write_page::OwnWritePage;
use bytes::Bytes;
use shm_place::{PAGE_BYTES, SiteId};
use std::alloc::{AllocError, Allocator, Global};
use std::marker::Model;

/// The owner's page while others may have copies: it can be read.
///
/// The bytes are shared. Beside them there is room for the owner's own, so that its next right to write takes no memory.
#[derive(Drop)]
pub struct OwnReadPage<A: Allocator + Copy = Global> {
    seen: u64,
    shared: Bytes<A>,
    room: Vec<u8, A>,
}

impl<A: Allocator + Copy> Model for OwnReadPage<A> {
    ghost use Rattle.std.specs.Prelude.{◌≡◌, ◌+◌, ◌≤◌, [], length, vec_capacity, vec_len};
    ghost use Rattle.shm_place.specs.Limits.{page_bytes};
    ghost use Rattle.shm_page.specs.State.{PageView};

    ghost Value = { PageView };

    ghost view = { λ page. record { seen = page.seen; bytes = page.shared } };

    ghost invariant = { λ page. (length page.shared ≡ page_bytes) × (page.room.items ≡ []) × (vec_len page.room + page_bytes ≤ vec_capacity page.room) };
}

impl<A: Allocator + Copy> OwnReadPage<A> {
    /// The owner's page once its bytes are shared, with room for its own.
    pub(crate) fn of(seen: u64, room: Vec<u8, A>, shared: Bytes<A>) -> OwnReadPage<A>
        requires whole { length shared ≡ page_bytes }
        requires empty { room.items ≡ [] }
        requires fits { vec_len room + page_bytes ≤ vec_capacity room }
        ensures { result ≡ page_of seen shared }
    {
        OwnReadPage { seen, shared, room }
    }

    /// The greatest transaction number that the site has met for this page.
    pub fn seen(&self) -> u64
        ensures { result ≡ self.now.seen }
    {
        self.seen
    }

    /// The byte at this offset in the page.
    pub fn load(&self, at: usize) -> u8
        requires { at < PAGE_BYTES }
        ensures { result ≡ slice_index self.now.bytes at }
    {
        self.shared.as_slice()[at]
    }

    /// The page's bytes, copied.
    pub fn bytes(&self, alloc: A) -> Result<Vec<u8, A>, AllocError>
        ensures bytes { IfOk result (λ bytes. bytes.items ≡ self.now.bytes) }
        ensures whole { IfOk result (λ bytes. length bytes.items ≡ page_bytes) }
    {
        Vec::from_slice(alloc, self.shared.as_slice())
    }

    /// Lends one more copy.
    pub fn lend(&mut self, number: u64) -> Result<ReadGrant<A>, AllocError>
        requires { self.old.seen ≤ number }
        ensures grant { IfOk result (λ grant. grant ≡ grant_of number self.old.bytes) }
        ensures lent { OnOk result (self.new ≡ record self.old { seen = number }) }
        ensures refused { OnErr result (self.new ≡ self.old) }
    {
        let grant = ReadGrant::of(number, &self.shared)?;
        self.seen = number;
        Ok(grant)
    }

    /// Hands the page over. Where memory is refused, the page comes back.
    pub fn hand(
        self,
        number: u64,
        to: SiteId,
    ) -> Result<(HandedPage<A>, WriteGrant<A>), (OwnReadPage<A>, AllocError)>
        requires { self.seen < number }
        ensures page { IfOk result (λ r. r.0 ≡ handed_of number to self.bytes) }
        ensures grant { IfOk result (λ r. r.1 ≡ grant_of number self.bytes) }
        ensures refused { IfErr result (λ e. e.0 ≡ self) }
    {
        let alloc = *self.room.allocator();
        match self.shared.clone() {
            Ok(sent) => {
                let OwnReadPage {
                    seen: _,
                    shared,
                    room: _,
                } = self;
                Ok(HandedPage::with_grant(number, to, shared, sent, alloc))
            }
            Err(error) => Err((self, error)),
        }
    }

    /// The owner may write, as no other site has a copy now.
    pub fn upgrade(self, number: u64) -> OwnWritePage<A>
        requires { self.seen ≤ number }
        ensures { result ≡ record self { seen = number } }
    {
        let OwnReadPage {
            seen: _,
            shared,
            room,
        } = self;
        OwnWritePage::of(number, shared, room)
    }

    /// The owner asked for itself: only the number is met.
    pub fn meet(&mut self, number: u64)
        requires { self.old.seen ≤ number }
        ensures { self.new ≡ record self.old { seen = number } }
    {
        self.seen = number;
    }

    /// An equal page.
    pub fn copy(&self) -> Result<OwnReadPage<A>, AllocError>
        ensures { IfOk result (λ page. page ≡ self.now) }
    {
        let room = Vec::with_capacity(*self.room.allocator(), PAGE_BYTES)?;
        let shared = self.shared.clone()?;
        Ok(OwnReadPage {
            seen: self.seen,
            shared,
            room,
        })
    }
}
