//! A book that is made anew from what was read of it.
ghost use Rattle.std.specs.Prelude.{◌≡◌, false, [], IfOk};
ghost use Rattle.shm_number.specs.Served.{served_of};
ghost use Rattle.shm_manager.specs.Book.{book_of, running_of};
ghost use Rattle.shm_place.specs.SiteSet.{has};

use crate::book::Book;
use crate::request_queue::Queue;
use shm_model::Kind;
use shm_number::Served;
use shm_place::{SiteId, SiteSet};
use std::alloc::{AllocError, Allocator};

impl<A: Allocator> Book<A> {
    /// The book that has these as its own, in which nobody has answered a Clear and nobody waits. Room for all that may wait is made here.
    pub fn restored(
        alloc: A,
        owner: SiteId,
        copies: SiteSet,
        number: u64,
        running: Option<(Kind, SiteId)>,
        served: Served,
    ) -> Result<Book<A>, AllocError>
        ensures { IfOk result (λ book. book_of book ≡ record {
          owner = owner;
          copies = has copies;
          number = number;
          running = running_of running;
          cleared = λ _. false;
          served = served_of served;
          waiting = [];
        }) }
    {
        let waiting = Queue::new(alloc)?;
        Ok(Book {
            owner,
            copies,
            number,
            running,
            cleared: SiteSet::empty(),
            served,
            waiting,
        })
    }

    /// The greatest request number that was served of each site.
    pub fn served(&self) -> &Served
        ensures { served_of result.now ≡ (book_of self.now).served }
    {
        &self.served
    }
}
