ghost use Rattle.std.specs.Prelude.{◌≡◌, ◌<◌, IfOk, IfErr};
ghost use Rattle.shm_page.specs.State.{nil_of, page_of};

use crate::copy_page::CopyPage;
use crate::handed_page::WriteGrant;
use crate::lent_copy::ReadGrant;
use crate::own_write_page::OwnWritePage;
use std::alloc::{AllocError, Allocator};
use std::marker::Model;

/// Nothing of the page is here: it can be neither read nor written.
#[derive(Drop)]
pub struct NilPage {
    seen: u64,
}

impl Model for NilPage {
    ghost use Rattle.shm_page.specs.State.{NilView};

    ghost Value = { NilView };

    ghost view = { λ page. record { seen = page.seen } };
}

impl NilPage {
    /// The state of a site without the page that has met this number; 0 where it has met none.
    pub fn after(number: u64) -> NilPage
        ensures { result ≡ nil_of number }
    {
        NilPage { seen: number }
    }

    /// The greatest transaction number that the site has met for this page.
    pub fn seen(&self) -> u64
        ensures { result ≡ self.now.seen }
    {
        self.seen
    }

    /// Nothing is taken away, but the number is met.
    pub fn clear(self, number: u64) -> NilPage
        requires { self.seen < number }
        ensures { result ≡ nil_of number }
    {
        NilPage::after(number)
    }

    /// The right to read comes.
    pub fn install_read<A: Allocator + Copy>(self, grant: ReadGrant<A>) -> CopyPage<A>
        requires { self.seen < grant.number }
        ensures { result ≡ page_of grant.number grant.bytes }
    {
        CopyPage::from_grant(grant)
    }

    /// The page comes, and this site owns it. Where memory is refused, page and grant come back.
    pub fn install_write<A: Allocator + Copy>(
        self,
        grant: WriteGrant<A>,
    ) -> Result<OwnWritePage<A>, (NilPage, WriteGrant<A>, AllocError)>
        requires { self.seen < grant.number }
        ensures installed { IfOk result (λ page. page ≡ page_of grant.number grant.bytes) }
        ensures refused { IfErr result (λ e. (e.0 ≡ self) × (e.1 ≡ grant)) }
    {
        match grant.into_page() {
            Ok(page) => Ok(page),
            Err((grant, error)) => Err((self, grant, error)),
        }
    }

    /// An equal page.
    pub fn copy(&self) -> NilPage
        ensures { result ≡ self.now }
    {
        NilPage { seen: self.seen }
    }
}
