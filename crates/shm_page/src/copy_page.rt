ghost use Rattle.std.specs.Prelude.{◌≡◌, ◌<◌, length, slice_index, IfOk, IfErr};
ghost use Rattle.shm_place.specs.Limits.{page_bytes};
ghost use Rattle.shm_page.specs.State.{nil_of, page_of};

use crate::handed_page::WriteGrant;
use crate::lent_copy::ReadGrant;
use crate::nil_page::NilPage;
use crate::own_write_page::OwnWritePage;
use bytes::Bytes;
use shm_place::PAGE_BYTES;
use std::alloc::{AllocError, Allocator, Global};
use std::marker::Model;

/// A copy of a page that another site owns: it can be read.
#[derive(Drop)]
pub struct CopyPage<A: Allocator + Copy = Global> {
    seen: u64,
    bytes: Bytes<A>,
}

impl<A: Allocator + Copy> Model for CopyPage<A> {
    ghost use Rattle.std.specs.Prelude.{◌≡◌, length};
    ghost use Rattle.shm_place.specs.Limits.{page_bytes};
    ghost use Rattle.shm_page.specs.State.{PageView};

    ghost Value = { PageView };

    ghost view = { λ page. record { seen = page.seen; bytes = page.bytes } };

    ghost invariant = { λ page. length page.bytes ≡ page_bytes };
}

impl<A: Allocator + Copy> CopyPage<A> {
    /// The copy that a grant brings.
    pub(crate) fn from_grant(grant: ReadGrant<A>) -> CopyPage<A>
        ensures { result ≡ page_of grant.number grant.bytes }
    {
        let seen = grant.number();
        CopyPage {
            seen,
            bytes: grant.into_bytes(),
        }
    }

    /// The greatest transaction number that the site has met for this page.
    pub fn seen(&self) -> u64
        ensures { result ≡ self.now.seen }
    {
        self.seen
    }

    /// The byte at this offset in the page.
    pub fn load(&self, at: usize) -> u8
        requires { at < PAGE_BYTES }
        ensures { result ≡ slice_index self.now.bytes at }
    {
        self.bytes.as_slice()[at]
    }

    /// The page's bytes, copied.
    pub fn bytes(&self, alloc: A) -> Result<Vec<u8, A>, AllocError>
        ensures bytes { IfOk result (λ bytes. bytes.items ≡ self.now.bytes) }
        ensures whole { IfOk result (λ bytes. length bytes.items ≡ page_bytes) }
    {
        Vec::from_slice(alloc, self.bytes.as_slice())
    }

    /// Takes the copy away: another site is to write.
    pub fn clear(self, number: u64) -> NilPage
        requires { self.seen < number }
        ensures { result ≡ nil_of number }
    {
        NilPage::after(number)
    }

    /// Drops the copy to make room for others. The site meets no transaction by that.
    pub fn forget(self) -> NilPage
        ensures { result ≡ nil_of self.seen }
    {
        NilPage::after(self.seen)
    }

    /// A newer copy comes.
    pub fn install_read(self, grant: ReadGrant<A>) -> CopyPage<A>
        requires { self.seen < grant.number }
        ensures { result ≡ page_of grant.number grant.bytes }
    {
        CopyPage::from_grant(grant)
    }

    /// The page comes, and this site owns it. Where memory is refused, page and grant come back.
    pub fn install_write(
        self,
        grant: WriteGrant<A>,
    ) -> Result<OwnWritePage<A>, (CopyPage<A>, WriteGrant<A>, AllocError)>
        requires { self.seen < grant.number }
        ensures installed { IfOk result (λ page. page ≡ page_of grant.number grant.bytes) }
        ensures refused { IfErr result (λ e. (e.0 ≡ self) × (e.1 ≡ grant)) }
    {
        match grant.into_page() {
            Ok(page) => Ok(page),
            Err((grant, error)) => Err((self, grant, error)),
        }
    }

    /// An equal page.
    pub fn copy(&self) -> Result<CopyPage<A>, AllocError>
        ensures { IfOk result (λ page. page ≡ self.now) }
    {
        let bytes = self.bytes.clone()?;
        Ok(CopyPage {
            seen: self.seen,
            bytes,
        })
    }
}
