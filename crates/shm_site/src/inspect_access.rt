//! Shows what a load or a store would do at once. No step is made, and nothing is asked for.
ghost use Rattle.std.specs.Prelude.{◌≡◌, ◌&&◌, not, ℕ};
ghost use Rattle.shm_model.specs.Access.{is_pending};
ghost use Rattle.shm_model.specs.Access as model;
ghost use Rattle.shm_model.specs.Entry.{writable};
ghost use Rattle.shm_model.specs.declared.request_kind.Kind.TheVariants.{Write};
ghost use Rattle.shm_site.specs.AtOnce.{byte_given, is_stored, waits};
ghost use Rattle.shm_site.specs.Site.{site_of};

use crate::site::Site;
use shm_model::{Access, Kind};
use shm_parts::LoadOutcome;
use shm_place::PageId;
use std::alloc::Allocator;

impl<A: Allocator + Copy> Site<A> {
    /// The byte that a load through this attachment at this offset would give at once. None: it would wait for its right, or be refused.
    pub fn byte_at(&self, at: u32, offset: u32) -> Option<u8>
        ensures { result ≡ byte_given (model.load self.now.sites self.now.me at offset (site_of self.now)).answer }
    {
        match self.holdings.load(at, offset) {
            Ok(LoadOutcome::Byte(byte)) => Some(byte),
            Ok(LoadOutcome::Absent(_)) => None,
            Err(_) => None,
        }
    }

    /// Checks that a store through this attachment at this offset would be made at once, whatever its byte.
    pub fn takes_store(&self, at: u32, offset: u32) -> bool
        ensures { (byte : ℕ) → result ≡ is_stored (model.store self.now.sites self.now.me at offset byte (site_of self.now)).answer }
    {
        match self.holdings.reached_to_store(at, offset) {
            Some(page) => self.may_store(&page),
            None => false,
        }
    }

    /// Checks that a load would wait for a right that was asked for before.
    pub fn load_waits(&self, at: u32, offset: u32) -> bool
        ensures { result ≡ waits (model.load self.now.sites self.now.me at offset (site_of self.now)).answer }
    {
        match self.holdings.load(at, offset) {
            Ok(LoadOutcome::Absent(page)) => self.pending.serves(Kind::Read, page),
            Ok(LoadOutcome::Byte(_)) => false,
            Err(_) => false,
        }
    }

    /// Checks that a store would wait for a right that was asked for before.
    pub fn store_waits(&self, at: u32, offset: u32) -> bool
        ensures { (byte : ℕ) → result ≡ waits (model.store self.now.sites self.now.me at offset byte (site_of self.now)).answer }
    {
        match self.holdings.reached_to_store(at, offset) {
            Some(page) => self.waits_to_store(&page),
            None => false,
        }
    }

    /// Checks that the site has the right to write the page.
    fn may_store(&self, page: &PageId) -> bool
        ensures { result ≡ writable ((site_of self.now).entries page.now) }
    {
        matches!(self.holdings.access(*page), Access::Write)
    }

    /// Checks that the right to write the page isn't here, and was asked for.
    fn waits_to_store(&self, page: &PageId) -> bool
        ensures { result ≡ (not (writable ((site_of self.now).entries page.now)) && is_pending Write page.now (site_of self.now).pending) }
    {
        !self.may_store(page) && self.pending.serves(Kind::Write, *page)
    }
}
