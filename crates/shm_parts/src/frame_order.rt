//! The order in which the site gives copies up.
ghost use Rattle.std.specs.Prelude.{◌≡◌, [], ◌∷◌, ◌++◌, None, length, not, true, if◌then◌else◌, IfOk, OnErr, OnOk};
ghost use Rattle.std.specs.List.{IsDistinct, list_any};
ghost use Rattle.shm_place.specs.Page.{same_page};
ghost use Rattle.shm_model.specs.SegmentCalls.{without_segment};

use crate::entry_change::Change;
use crate::ordered_pages::OrderedPages;
use shm_place::{PageId, SegId};
use std::alloc::{AllocError, Allocator, Global};

/// How many pages may be held as copies, and those that are, the next to go first.
#[derive(Drop)]
pub struct Frames<A: Allocator + Copy = Global> {
    pub(crate) limit: u32,
    /// The copies in their order, and the page for which room was made.
    pub(crate) pages: OrderedPages<(), A>,
    /// The page for which room was made: it is among the copies here, though it is none yet.
    pub(crate) awaited: Option<PageId>,
}

impl<A: Allocator + Copy> Frames<A> {
    ghost use Rattle.shm_parts.specs.Frames.{arranged_by, frames_of, has_room, installs, is_awaited, overflowed};

    /// No copies, and at most `limit` from now on.
    #[tactic(auto, unfolding(crate::specs::Frames::copies_in))]
    pub fn new(alloc: A, limit: u32) -> Frames<A>
        ensures { frames_of result ≡ record { limit = limit; copies = [] } }
    {
        Frames {
            limit,
            pages: OrderedPages::new(alloc),
            awaited: None,
        }
    }

    /// Makes room for the page as a copy, in place of the room made before.
    pub fn reserve(&mut self, page: &PageId) -> Result<(), AllocError>
        ensures same { frames_of self.new ≡ frames_of self.old }
        ensures room { OnOk result (has_room page.now self.new) }
    {
        self.let_go();
        self.pages.reserve()?;
        if self.pages.put(*page, ())? {
            self.awaited = Some(*page);
        }
        Ok(())
    }

    /// Gives up the room that was made and not used.
    fn let_go(&mut self)
        ensures same { frames_of self.new ≡ frames_of self.old }
        ensures none { self.new.awaited ≡ None }
    {
        let Some(page) = &self.awaited else {
            return;
        };
        self.pages.remove(page);
        self.awaited = None;
    }

    /// Puts a copy that came last among the copies, and takes out a page that is no copy now. Room for it was made before; room that isn't
    /// used is given up.
    pub(crate) fn arrange(&mut self, page: PageId, change: Change)
        requires { installs change ≡ true → has_room page self.old }
        ensures arranged { frames_of self.new ≡ record (frames_of self.old) { copies = arranged_by change page (frames_of self.old).copies } }
        ensures none { self.new.awaited ≡ None }
    {
        if change.installs() {
            self.pages.move_last(&page);
            self.awaited = None;
            return;
        }
        self.let_go();
        if !change.copy {
            self.pages.remove(&page);
        }
    }

    /// Takes the first copy out where there are more than there may be.
    #[tactic(auto, unfolding(crate::specs::Frames::copies_in))]
    pub(crate) fn overflow(&mut self) -> Option<PageId>
        requires { self.old.awaited ≡ None }
        ensures { (result, frames_of self.new) ≡ overflowed (frames_of self.old) }
    {
        if self.pages.len() <= self.limit as usize {
            return None;
        }
        self.pages.pop_first()
    }

    /// Forgets the copies of a segment's pages.
    pub fn remove_segment(&mut self, id: SegId)
        ensures { frames_of self.new ≡ record (frames_of self.old) { copies = without_segment id (frames_of self.old).copies } }
    {
        self.let_go();
        self.pages.remove_segment(id);
    }

    /// How many copies there may be.
    pub fn limit(&self) -> u32
        ensures { result ≡ (frames_of self.now).limit }
    {
        self.limit
    }

    /// How many pages stand here, with the one for which room was made. Each copy stands here once.
    #[tactic(auto, unfolding(crate::specs::Frames::copies_in))]
    pub(crate) fn standing_count(&self) -> usize
        ensures count { result ≡ length self.now.pages }
        ensures apart { IsDistinct same_page (frames_of self.now).copies }
    {
        self.pages.count()
    }

    /// The copies, the next to go first.
    #[tactic(auto, using(crate::proofs::FrameRestoring::counted_left), unfolding(crate::specs::Frames::copies_in))]
    pub fn copies(&self, alloc: A) -> Result<Vec<PageId, A>, AllocError>
        ensures { IfOk result (λ copies. copies.items ≡ (frames_of self.now).copies) }
    {
        let mut copies = Vec::new(alloc);
        'pages: for (page, _) in self.pages.iter() {
            if self.awaits(page) {
                continue;
            }
            copies.push(*page)?;
        }
        Ok(copies)
    }

    /// Checks that room was made for the page and not used.
    fn awaits(&self, page: &PageId) -> bool
        ensures { result ≡ is_awaited page.now self.now.awaited }
    {
        match &self.awaited {
            None => false,
            Some(awaited) => *awaited == *page,
        }
    }

    /// Puts the page behind the copies, as the last to go, unless it is one. Answers whether it did. Where memory is refused nothing
    /// changes.
    pub fn restore(&mut self, page: &PageId) -> Result<bool, AllocError>
        ensures joins { IfOk result (λ joins. joins ≡ not (list_any (same_page page.now) (frames_of self.old).copies)) }
        ensures after { IfOk result (λ joins. frames_of self.new ≡ (if joins
            then record (frames_of self.old) { copies = (frames_of self.old).copies ++ page.now ∷ [] } else frames_of self.old)) }
        ensures refused { OnErr result (frames_of self.new ≡ frames_of self.old) }
    {
        self.let_go();
        self.pages.put(*page, ())
    }

    /// An equal limit, and equal copies in equal order.
    #[tactic(auto, unfolding(crate::specs::Frames::copies_in))]
    pub fn copy(&self) -> Result<Frames<A>, AllocError>
        ensures { IfOk result (λ copy. frames_of copy ≡ frames_of self.now) }
    {
        let pages = self.pages.copy()?;
        Ok(Frames {
            limit: self.limit,
            pages,
            awaited: self.awaited,
        })
    }
}
