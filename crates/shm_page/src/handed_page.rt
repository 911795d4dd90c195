ghost use Rattle.std.specs.Prelude.{◌≡◌, ◌<◌, length, IfOk, IfErr};
ghost use Rattle.shm_place.specs.Limits.{page_bytes};
ghost use Rattle.shm_page.specs.State.{nil_of, page_of, handed_of, grant_of};

use crate::copy_page::CopyPage;
use crate::lent_copy::ReadGrant;
use crate::nil_page::NilPage;
use crate::own_write_page::OwnWritePage;
use bytes::Bytes;
use shm_place::{PAGE_BYTES, SiteId};
use std::alloc::{AllocError, Allocator, Global};
use std::marker::Model;

/// A page that the owner handed to another site. It keeps the bytes while they may be needed, and can be neither read nor written.
#[derive(Drop)]
pub struct HandedPage<A: Allocator + Copy = Global> {
    seen: u64,
    to: SiteId,
    bytes: Bytes<A>,
    alloc: A,
}

impl<A: Allocator + Copy> Model for HandedPage<A> {
    ghost use Rattle.std.specs.Prelude.{◌≡◌, length};
    ghost use Rattle.shm_place.specs.Limits.{page_bytes};
    ghost use Rattle.shm_page.specs.State.{HandedView};

    ghost Value = { HandedView };

    ghost view = { λ page. record { seen = page.seen; to = page.to; bytes = page.bytes } };

    ghost invariant = { λ page. length page.bytes ≡ page_bytes };
}

/// A page on its way to the site that asked to write, which becomes its owner. Only an owner that hands its page over makes one.
#[derive(Drop)]
pub struct WriteGrant<A: Allocator + Copy = Global> {
    number: u64,
    bytes: Bytes<A>,
    alloc: A,
}

impl<A: Allocator + Copy> Model for WriteGrant<A> {
    ghost use Rattle.std.specs.Prelude.{◌≡◌, length};
    ghost use Rattle.shm_place.specs.Limits.{page_bytes};
    ghost use Rattle.shm_page.specs.State.{GrantView};

    ghost Value = { GrantView };

    ghost view = { λ grant. record { number = grant.number; bytes = grant.bytes } };

    ghost invariant = { λ grant. length grant.bytes ≡ page_bytes };
}

impl<A: Allocator + Copy> HandedPage<A> {
    /// The state of an owner that hands these bytes over and keeps equal ones, and the grant.
    pub(crate) fn with_grant(
        number: u64,
        to: SiteId,
        kept: Bytes<A>,
        sent: Bytes<A>,
        alloc: A,
    ) -> (HandedPage<A>, WriteGrant<A>)
        requires whole { length kept ≡ page_bytes }
        requires same { sent ≡ kept }
        ensures page { result.0 ≡ handed_of number to kept }
        ensures grant { result.1 ≡ grant_of number kept }
    {
        let grant = WriteGrant {
            number,
            bytes: sent,
            alloc,
        };
        let page = HandedPage {
            seen: number,
            to,
            bytes: kept,
            alloc,
        };
        (page, grant)
    }

    /// The greatest transaction number that the site has met for this page.
    pub fn seen(&self) -> u64
        ensures { result ≡ self.now.seen }
    {
        self.seen
    }

    /// The site that the page was handed to.
    pub fn to(&self) -> SiteId
        ensures { result ≡ self.now.to }
    {
        self.to
    }

    /// The same grant once more, in case the first was lost.
    pub fn again(&self) -> Result<WriteGrant<A>, AllocError>
        ensures { IfOk result (λ grant. grant ≡ grant_of self.now.seen self.now.bytes) }
    {
        let bytes = self.bytes.clone()?;
        Ok(WriteGrant {
            number: self.seen,
            bytes,
            alloc: self.alloc,
        })
    }

    /// The kept bytes, copied.
    pub fn bytes(&self, alloc: A) -> Result<Vec<u8, A>, AllocError>
        ensures bytes { IfOk result (λ bytes. bytes.items ≡ self.now.bytes) }
        ensures whole { IfOk result (λ bytes. length bytes.items ≡ page_bytes) }
    {
        Vec::from_slice(alloc, self.bytes.as_slice())
    }

    /// Takes the kept bytes away.
    pub fn clear(self, number: u64) -> NilPage
        requires { self.seen < number }
        ensures { result ≡ nil_of number }
    {
        NilPage::after(number)
    }

    /// The right to read comes back.
    pub fn install_read(self, grant: ReadGrant<A>) -> CopyPage<A>
        requires { self.seen < grant.number }
        ensures { result ≡ page_of grant.number grant.bytes }
    {
        CopyPage::from_grant(grant)
    }

    /// The page comes back, and this site owns it again. Where memory is refused, page and grant come back.
    pub fn install_write(
        self,
        grant: WriteGrant<A>,
    ) -> Result<OwnWritePage<A>, (HandedPage<A>, WriteGrant<A>, AllocError)>
        requires { self.seen < grant.number }
        ensures installed { IfOk result (λ page. page ≡ page_of grant.number grant.bytes) }
        ensures refused { IfErr result (λ e. (e.0 ≡ self) × (e.1 ≡ grant)) }
    {
        match grant.into_page() {
            Ok(page) => Ok(page),
            Err((grant, error)) => Err((self, grant, error)),
        }
    }

    /// An equal page.
    pub fn copy(&self) -> Result<HandedPage<A>, AllocError>
        ensures { IfOk result (λ page. page ≡ self.now) }
    {
        let bytes = self.bytes.clone()?;
        Ok(HandedPage {
            seen: self.seen,
            to: self.to,
            bytes,
            alloc: self.alloc,
        })
    }
}

impl<A: Allocator + Copy> WriteGrant<A> {
    /// The transaction's number.
    pub fn number(&self) -> u64
        ensures { result ≡ self.now.number }
    {
        self.number
    }

    /// The page's bytes.
    pub fn bytes(&self) -> &[u8]
        ensures { result.now ≡ self.now.bytes }
    {
        self.bytes.as_slice()
    }

    /// The page of the owner that the grant makes. Where memory is refused, the grant comes back.
    pub(crate) fn into_page(self) -> Result<OwnWritePage<A>, (WriteGrant<A>, AllocError)>
        ensures page { IfOk result (λ page. page ≡ page_of self.number self.bytes) }
        ensures refused { IfErr result (λ e. e.0 ≡ self) }
    {
        let room = match Vec::with_capacity(self.alloc, PAGE_BYTES) {
            Ok(room) => room,
            Err(error) => return Err((self, error)),
        };
        let WriteGrant {
            number,
            bytes,
            alloc: _,
        } = self;
        Ok(OwnWritePage::of(number, bytes, room))
    }

    /// An equal grant, as a network makes one when it hands a message over twice.
    pub fn copy(&self) -> Result<WriteGrant<A>, AllocError>
        ensures { IfOk result (λ grant. grant ≡ self.now) }
    {
        let bytes = self.bytes.clone()?;
        Ok(WriteGrant {
            number: self.number,
            bytes,
            alloc: self.alloc,
        })
    }
}
