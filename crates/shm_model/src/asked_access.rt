/// A load or a store, through the attachment of the number `at`, at an offset of the segment.
#[derive(Clone, Copy, Debug, PartialEq, Eq)]
pub enum Asked {
    Load { at: u32, offset: u32 },
    Store { at: u32, offset: u32, byte: u8 },
}
