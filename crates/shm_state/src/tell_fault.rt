/// Why a site's state isn't told.
#[derive(Clone, Copy, Debug, PartialEq, Eq)]
pub enum TellFault {
    /// The site may hold only so many copies, of which its parts don't tell.
    Limited,
    /// Memory is refused.
    OutOfMemory,
}
