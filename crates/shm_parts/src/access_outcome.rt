use shm_place::PageId;

/// The outcome of a load through an attachment.
#[derive(Clone, Copy, Debug)]
pub enum LoadOutcome {
    Byte(u8),
    /// The right to read this page isn't here.
    Absent(PageId),
}

/// The outcome of a store through an attachment.
#[derive(Clone, Copy, Debug)]
pub enum StoreOutcome {
    Stored,
    /// The right to write this page isn't here.
    Absent(PageId),
}
