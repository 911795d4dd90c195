/// How many bytes a page has.
pub const PAGE_BYTES: usize = 4096;

/// How many bytes a segment has at most.
pub const MAX_SEGMENT_BYTES: u32 = 1_048_576;

/// How many pages a segment has at most; page indexes are below it.
pub const PAGES: u32 = 256;

/// How many segments a home makes at most, ever; identifiers are never used again.
pub const SEGMENTS_OF_A_HOME: u32 = 65_536;

/// How many pages a site may be limited to hold as copies, at most.
pub const MAX_FRAMES: u32 = 65_536;
