use shm_model::{Answer, Asked};
use shm_place::PageId;
use shm_wire::RevokeText;

/// What becomes of a line that comes, by what the site's machine maps.
#[derive(Clone, Copy, Debug, PartialEq, Eq)]
pub(crate) enum Meeting {
    /// It is taken.
    Free,
    /// It is kept back, and the machine is asked to give a page up. `page`: it is an envelope, and what it asks for of this page is mapped.
    Kept {
        page: Option<PageId>,
        wants: Option<RevokeText>,
    },
    /// It makes no step, and is answered so.
    Answered(Answer),
    /// It maps the page with this index in the attachment's segment, whose right is there.
    Maps {
        at: u32,
        index: u32,
    },
    /// It is a map whose right is still to be asked for, by this access, which isn't made.
    Tries(Asked),
    /// It gives up a page that is mapped so.
    Unmaps,
}
