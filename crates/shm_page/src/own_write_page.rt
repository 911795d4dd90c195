ghost use Rattle.std.specs.Prelude.{◌≡◌, ◌<◌, ◌≤◌, ◌+◌, [], None, length, slice_index, slice_set, vec_capacity, vec_len, IfOk, IfErr};
ghost use Rattle.shm_place.specs.Limits.{page_bytes};
ghost use Rattle.shm_model.specs.Site.{blank};
ghost use Rattle.shm_page.specs.State.{page_of, handed_of, grant_of, owned_bytes};

use crate::handed_page::{HandedPage, WriteGrant};
use crate::lent_copy::ReadGrant;
use crate::own_read_page::OwnReadPage;
use crate::share_bytes::{Shared, share};
use bytes::Bytes;
use shm_place::{PAGE_BYTES, SiteId};
use std::alloc::{AllocError, Allocator, Global};
use std::marker::Model;

/// The page at its owner while nobody else has a copy: it can be read and written.
///
/// It has room for bytes of its own from the beginning, and fills it at the first store: until then it has the bytes that it came with,
/// or zeros. So nothing is copied or cleared for a page that isn't stored to, and a store takes no memory.
#[derive(Drop)]
pub struct OwnWritePage<A: Allocator + Copy = Global> {
    seen: u64,
    /// The bytes that the page came with, if it came and has none of its own yet.
    given: Option<Bytes<A>>,
    own: Vec<u8, A>,
}

impl<A: Allocator + Copy> Model for OwnWritePage<A> {
    ghost use Rattle.std.specs.Prelude.{◌≡◌, ◌≤◌, [], IfSome, length, vec_capacity};
    ghost use Rattle.shm_place.specs.Limits.{page_bytes};
    ghost use Rattle.shm_page.specs.State.{PageView, owned_bytes};

    ghost Value = { PageView };

    ghost view = { λ page. record { seen = page.seen; bytes = owned_bytes page.given page.own.items } };

    ghost invariant = { λ page. (length (owned_bytes page.given page.own.items) ≡ page_bytes) × (page_bytes ≤ vec_capacity page.own)
        × IfSome page.given (λ _. page.own.items ≡ []) };
}

impl<A: Allocator + Copy> OwnWritePage<A> {
    /// The page before anything was met or stored.
    pub(crate) fn blank(alloc: A) -> Result<OwnWritePage<A>, AllocError>
        ensures { IfOk result (λ page. page ≡ page_of 0 blank) }
    {
        let own = Vec::with_capacity(alloc, PAGE_BYTES)?;
        Ok(OwnWritePage {
            seen: 0,
            given: None,
            own,
        })
    }

    /// The greatest transaction number that the site has met for this page.
    pub fn seen(&self) -> u64
        ensures { result ≡ self.now.seen }
    {
        self.seen
    }

    /// The byte at this offset in the page.
    pub fn load(&self, at: usize) -> u8
        requires { at < PAGE_BYTES }
        ensures { result ≡ slice_index self.now.bytes at }
    {
        if self.own.is_empty() {
            return given_byte(&self.given, at);
        }
        self.own.as_slice()[at]
    }

    /// The page's bytes, copied.
    pub fn bytes(&self, alloc: A) -> Result<Vec<u8, A>, AllocError>
        ensures bytes { IfOk result (λ bytes. bytes.items ≡ self.now.bytes) }
        ensures whole { IfOk result (λ bytes. length bytes.items ≡ page_bytes) }
    {
        if !self.own.is_empty() {
            return Vec::from_slice(alloc, self.own.as_slice());
        }
        given_bytes(alloc, &self.given)
    }

    /// Changes the byte at this offset in the page.
    pub fn store(&mut self, at: usize, byte: u8)
        requires { at < PAGE_BYTES }
        ensures { self.new ≡ record self.old { bytes = slice_set self.old.bytes at byte } }
    {
        if self.own.is_empty() {
            fill(&mut self.own, self.given.take());
        }
        self.own[at] = byte;
    }

    /// The owner's page of these bytes, while nobody else is to have them, with room for its own.
    pub(crate) fn of(seen: u64, given: Bytes<A>, room: Vec<u8, A>) -> OwnWritePage<A>
        requires whole { length given ≡ page_bytes }
        requires empty { room.items ≡ [] }
        requires fits { page_bytes ≤ vec_capacity room }
        ensures { result ≡ page_of seen given }
    {
        OwnWritePage {
            seen,
            given: Some(given),
            own: room,
        }
    }

    /// Lends the first copy: from now on the owner only reads. Where memory is refused, the page comes back.
    pub fn downgrade(
        self,
        number: u64,
    ) -> Result<(OwnReadPage<A>, ReadGrant<A>), (OwnWritePage<A>, AllocError)>
        requires { self.seen ≤ number }
        ensures page { IfOk result (λ r. r.0 ≡ record self { seen = number }) }
        ensures grant { IfOk result (λ r. r.1 ≡ grant_of number self.bytes) }
        ensures refused { IfErr result (λ e. e.0 ≡ self) }
    {
        let (shared, lent, room) = self.share()?;
        let page = OwnReadPage::of(number, room, shared);
        Ok((page, ReadGrant::holding(number, lent)))
    }

    /// The page's bytes with two holders, and room for as many. Where memory is refused, the page comes back.
    fn share(self) -> Result<Shared<A>, (OwnWritePage<A>, AllocError)>
        ensures first { IfOk result (λ r. r.0 ≡ self.bytes) }
        ensures second { IfOk result (λ r. r.1 ≡ self.bytes) }
        ensures whole { IfOk result (λ r. length r.0 ≡ page_bytes) }
        ensures empty { IfOk result (λ r. r.2.items ≡ []) }
        ensures fits { IfOk result (λ r. vec_len r.2 + page_bytes ≤ vec_capacity r.2) }
        ensures refused { IfErr result (λ e. e.0 ≡ self) }
    {
        let OwnWritePage { seen, given, own } = self;
        let Some(given) = given else {
            return share_own(seen, own);
        };
        match given.clone() {
            Ok(second) => Ok((given, second, own)),
            Err(error) => Err((OwnWritePage::of(seen, given, own), error)),
        }
    }

    /// Hands the page over. Where memory is refused, the page comes back.
    pub fn hand(
        self,
        number: u64,
        to: SiteId,
    ) -> Result<(HandedPage<A>, WriteGrant<A>), (OwnWritePage<A>, AllocError)>
        requires { self.seen < number }
        ensures page { IfOk result (λ r. r.0 ≡ handed_of number to self.bytes) }
        ensures grant { IfOk result (λ r. r.1 ≡ grant_of number self.bytes) }
        ensures refused { IfErr result (λ e. e.0 ≡ self) }
    {
        let alloc = *self.own.allocator();
        let (kept, sent, _) = self.share()?;
        Ok(HandedPage::with_grant(number, to, kept, sent, alloc))
    }

    /// The right to write once more: only the number is met.
    pub fn upgrade(self, number: u64) -> OwnWritePage<A>
        requires { self.seen ≤ number }
        ensures { result ≡ record self { seen = number } }
    {
        OwnWritePage {
            seen: number,
            ..self
        }
    }

    /// The owner asked for itself: only the number is met.
    pub fn meet(&mut self, number: u64)
        requires { self.old.seen ≤ number }
        ensures { self.new ≡ record self.old { seen = number } }
    {
        self.seen = number;
    }

    /// An equal page.
    pub fn copy(&self) -> Result<OwnWritePage<A>, AllocError>
        ensures { IfOk result (λ page. page ≡ self.now) }
    {
        let mut own = Vec::with_capacity(*self.own.allocator(), PAGE_BYTES)?;
        own.extend_from_slice(self.own.as_slice())?;
        let given = match &self.given {
            Some(given) => Some(given.clone()?),
            None => None,
        };
        Ok(OwnWritePage {
            seen: self.seen,
            given,
            own,
        })
    }
}

/// A byte of a page that has none of its own.
fn given_byte<A: Allocator + Copy>(given: &Option<Bytes<A>>, at: usize) -> u8
    requires within { at < page_bytes }
    requires whole { length (owned_bytes given.now []) ≡ page_bytes }
    ensures { result ≡ slice_index (owned_bytes given.now []) at }
{
    match given {
        Some(given) => given.as_slice()[at],
        None => 0,
    }
}

/// The bytes of a page that has none of its own, copied.
fn given_bytes<A: Allocator + Copy>(
    alloc: A,
    given: &Option<Bytes<A>>,
) -> Result<Vec<u8, A>, AllocError>
    requires { length (owned_bytes given.now []) ≡ page_bytes }
    ensures { IfOk result (λ bytes. bytes.items ≡ owned_bytes given.now []) }
{
    if let Some(given) = given {
        return Vec::from_slice(alloc, given.as_slice());
    }
    let mut zeros = Vec::with_capacity(alloc, PAGE_BYTES)?;
    fill(&mut zeros, None);
    Ok(zeros)
}

/// Gives a page bytes of its own, in the room that it has for them: those that it came with, or zeros.
// Out of line, so that a store stays short.
#[inline(never)]
fn fill<A: Allocator + Copy>(own: &mut Vec<u8, A>, given: Option<Bytes<A>>)
    requires empty { own.old.items ≡ [] }
    requires room { page_bytes ≤ vec_capacity own.old }
    requires whole { length (owned_bytes given []) ≡ page_bytes }
    ensures filled { own.new.items ≡ owned_bytes given [] }
    ensures room { page_bytes ≤ vec_capacity own.new }
{
    let _ = match given {
        Some(given) => own.extend_from_slice(given.as_slice()),
        None => own.resize(PAGE_BYTES, 0),
    };
}

/// The bytes that a page has of its own, or zeros, with two holders, and room for as many. Where memory is refused, the page comes back.
fn share_own<A: Allocator + Copy>(
    seen: u64,
    mut own: Vec<u8, A>,
) -> Result<Shared<A>, (OwnWritePage<A>, AllocError)>
    requires whole { length (owned_bytes None own.items) ≡ page_bytes }
    requires fits { page_bytes ≤ vec_capacity own }
    ensures first { IfOk result (λ r. r.0 ≡ owned_bytes None own.items) }
    ensures second { IfOk result (λ r. r.1 ≡ owned_bytes None own.items) }
    ensures whole { IfOk result (λ r. length r.0 ≡ page_bytes) }
    ensures empty { IfOk result (λ r. r.2.items ≡ []) }
    ensures fits { IfOk result (λ r. vec_len r.2 + page_bytes ≤ vec_capacity r.2) }
    ensures refused { IfErr result (λ e. e.0 ≡ page_of seen (owned_bytes None own.items)) }
{
    if own.is_empty() {
        fill(&mut own, None);
    }
    let room = match Vec::with_capacity(*own.allocator(), PAGE_BYTES) {
        Ok(room) => room,
        Err(error) => return Err((
            OwnWritePage {
                seen,
                given: None,
                own,
            },
            error,
        )),
    };
    match share(own, room) {
        Ok(shared) => Ok(shared),
        Err((own, error)) => Err((
            OwnWritePage {
                seen,
                given: None,
                own,
            },
            error,
        )),
    }
}
