use crate::call::Reply;

/// A site's answer to one input. `Refused` holds the refusal's number.
#[derive(Clone, Copy, Debug, PartialEq, Eq)]
pub enum Answer {
    /// The byte that was loaded.
    Byte(u8),
    Stored,
    /// The access had no right; its request has been sent to the page's manager.
    Fault,
    /// The access had no right, and a request that serves it is pending already.
    Waiting,
    /// A segment call began, under this number.
    Began(u64),
    /// The segment call of this number ended; `attachment` is the number of the attachment that an attach made.
    Replied {
        number: u64,
        reply: Reply,
        attachment: Option<u32>,
    },
    Took,
    /// A message that was ignored: nothing changed and nothing was sent.
    Dropped,
    Refused(u8),
}

/// A site's access to a page (Li and Hudak 1989, §3).
#[derive(Clone, Copy, Debug, PartialEq, Eq)]
pub enum Access {
    Nil,
    Read,
    Write,
}

/// The state in which a site holds a page. A site that purged the page's segment has `Purged`.
#[derive(Clone, Copy, Debug, PartialEq, Eq)]
pub enum State {
    Nil,
    Copy,
    OwnRead,
    OwnWrite,
    Handed,
    Purged,
}

/// A page as a site shows it: the state, and the greatest transaction number that the site has met.
#[derive(Clone, Copy, Debug, PartialEq, Eq)]
pub struct Shown {
    pub state: State,
    pub seen: u64,
}
