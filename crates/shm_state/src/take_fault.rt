/// Why a part of a site's state isn't taken.
#[derive(Clone, Copy, Debug, PartialEq, Eq)]
pub enum TakeFault {
    /// It should have been told before what was told last, or something is to be told before it.
    OutOfOrder,
    /// It was told already.
    Twice,
    /// No site has it beside what was told.
    Unfit,
    /// Memory is refused.
    OutOfMemory,
}
