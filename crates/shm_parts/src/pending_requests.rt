//! The pending requests, and their changes.
ghost use Rattle.std.specs.Prelude.{◌≡◌, ◌==◌, [], false, filter, length, map, not, true, IfOk, OnOk, OnErr};
ghost use Rattle.shm_model.specs.Access.{is_pending, put_pending};
ghost use Rattle.shm_model.specs.Book as model;
ghost use Rattle.shm_model.specs.Transfer.{settle};

use crate::ordered_pages::OrderedPages;
use crate::ordered_pages_iterator::PagesInOrder;
use shm_model::Kind;
use shm_place::{PageId, SegId};
use std::alloc::{AllocError, Allocator, Global};

/// The last request of each page whose access waits for a right: the request's number, and what it asks for.
///
/// What it costs: to look a page's request up, to put it or to settle it, the same on average however many are pending; to drop the
/// requests of a segment, a look-up for each page index up to the greatest that was ever put; to go over all, to copy or to clear
/// them, what is pending. `len` and `is_empty` count nothing.
#[derive(Drop)]
pub struct Pendings<A: Allocator + Copy = Global> {
    pub(crate) pages: OrderedPages<(u64, Kind), A>,
}

fn is_write(kind: Kind) -> bool
    ensures { result ≡ model.is_write kind }
{
    matches!(kind, Kind::Write)
}

impl<A: Allocator + Copy> Pendings<A> {
    ghost use Rattle.shm_parts.specs.Pendings.{pending_of, pendings_of, settles};

    /// Nothing is pending.
    pub fn new(alloc: A) -> Pendings<A>
        ensures { pendings_of result ≡ [] }
    {
        Pendings {
            pages: OrderedPages::new(alloc),
        }
    }

    /// Checks that a pending request serves this kind of access: a request to write serves all, one to read serves loads.
    pub fn serves(&self, kind: Kind, page: PageId) -> bool
        ensures { result ≡ is_pending kind page (pendings_of self.now) }
    {
        match self.pages.get(&page) {
            Some(pending) => is_write(pending.1) || !is_write(kind),
            None => false,
        }
    }

    /// The page's new request takes the place of its old one, or joins at the end. Where memory is refused nothing changes.
    pub fn put(&mut self, page: PageId, request: u64, kind: Kind) -> Result<(), AllocError>
        ensures put { OnOk result (pendings_of self.new ≡ put_pending (record { page = page; request = request; kind = kind }) (pendings_of self.old)) }
        ensures refused { OnErr result (pendings_of self.new ≡ pendings_of self.old) }
    {
        self.pages.put(page, (request, kind))?;
        Ok(())
    }

    /// Drops the page's request where a right has come that serves it: the right to read serves a request to read, the right to
    /// write any. The others keep their order.
    pub fn settle(&mut self, reads: bool, writes: bool, page: PageId)
        ensures { pendings_of self.new ≡ settle reads writes page (pendings_of self.old) }
    {
        if writes {
            self.pages.remove(&page);
        } else if reads {
            self.settle_read(page);
        }
    }

    /// Drops the page's request where it is one to read.
    fn settle_read(&mut self, page: PageId)
        ensures { pendings_of self.new ≡ settle true false page (pendings_of self.old) }
    {
        if self.asks_to_read(page) {
            self.pages.remove(&page);
        }
    }

    /// Checks that the page's request is one to read.
    fn asks_to_read(&self, page: PageId) -> bool
        ensures { result ≡ settles true false page (pendings_of self.now) }
    {
        match self.pages.get(&page) {
            Some(pending) => !is_write(pending.1),
            None => false,
        }
    }

    /// Drops the requests of a segment's pages.
    pub fn remove_segment(&mut self, id: SegId)
        ensures { pendings_of self.new ≡ filter (λ p. not (id == p.page.seg)) (pendings_of self.old) }
    {
        self.pages.remove_segment(id);
    }

    /// Drops all requests.
    pub fn clear(&mut self)
        ensures { pendings_of self.new ≡ [] }
    {
        self.pages.clear();
    }

    /// How many requests are pending.
    pub fn len(&self) -> usize
        ensures { result ≡ length (pendings_of self.now) }
    {
        self.pages.len()
    }

    /// Checks that no request is pending.
    pub fn is_empty(&self) -> bool
        ensures { result ≡ (length (pendings_of self.now) == 0) }
    {
        self.pages.len() == 0
    }

    /// The requests in their order, each as its page, its number and what it asks for.
    pub fn iter(&self) -> PagesInOrder<'_, (u64, Kind)>
        ensures { map pending_of result ≡ pendings_of self.now }
    {
        self.pages.iter()
    }

    /// Equal requests in equal order.
    pub fn copy(&self) -> Result<Pendings<A>, AllocError>
        ensures { IfOk result (λ copy. pendings_of copy ≡ pendings_of self.now) }
    {
        let pages = self.pages.copy()?;
        Ok(Pendings { pages })
    }
}
