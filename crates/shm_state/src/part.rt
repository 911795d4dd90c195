//! The parts of a site's state.
use shm_keys::Segment;
use shm_model::{Kind, Op, Reply};
use shm_number::Number;
use shm_place::{PageId, SegId, SiteId, SiteSet};
use std::alloc::{Allocator, Global};

/// What a restart leaves of a page's book.
#[derive(Clone, Copy)]
pub struct BookPart {
    /// The site that owns the page.
    pub owner: SiteId,
    /// The sites that may have a copy beside the owner's.
    pub copies: SiteSet,
    /// The number of the last transaction that started; 0 before the first.
    pub number: Number,
    /// What the running transaction gives, and to which site.
    pub running: Option<(Kind, SiteId)>,
    /// The greatest request number that was served of each of 16 sites, in their order.
    pub served: [Number; 16],
}

/// What a site has of a page: the transaction's number that it met last, and the page's bytes. There are as many as a page has where the part
/// was read; a printed part has them as they are.
#[derive(Drop)]
pub enum EntryPart<A: Allocator + Copy = Global> {
    /// Nothing.
    Gone {
        number: Number,
    },
    /// A copy.
    Copy {
        number: Number,
        bytes: Vec<u8, A>,
    },
    /// The owner's page, while others may have copies.
    OwnRead {
        number: Number,
        bytes: Vec<u8, A>,
    },
    /// The owner's page, while nobody else has a copy.
    OwnWrite {
        number: Number,
        bytes: Vec<u8, A>,
    },
    /// The page that was handed to this site, for which its bytes are kept.
    Handed {
        number: Number,
        to: SiteId,
        bytes: Vec<u8, A>,
    },
}

/// A part of what a site keeps over a restart. A page's book and what the site has of a page stand in a part each, as does each segment.
#[derive(Drop)]
pub enum Part<A: Allocator + Copy = Global> {
    /// The number of the site's last request; 0 before the first.
    Requests(Number),
    /// How many segment calls the site has begun.
    Calls(Number),
    /// The segment call whose reply the site waits for.
    Outstanding {
        number: Number,
        op: Op,
    },
    /// A segment that the site made as a home.
    Segment(Segment),
    /// A destroyed segment, and the sites that have yet to purge it.
    Missing {
        id: SegId,
        missing: SiteSet,
    },
    /// The last reply that the home gave to the site, and the number of its call.
    Kept {
        site: SiteId,
        number: Number,
        reply: Reply,
    },
    /// What the site has of a page.
    Entry {
        page: PageId,
        entry: EntryPart<A>,
    },
    /// A segment that the site has purged.
    Purged(SegId),
    /// What is attached at a number: the segment, its size as it was asked, and whether only to read.
    Attachment {
        number: u32,
        id: SegId,
        size: u32,
        ro: bool,
    },
    /// The book of a page that the site manages.
    Book {
        page: PageId,
        book: BookPart,
    },
}
