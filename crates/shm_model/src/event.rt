use crate::call::Request;
use shm_place::SiteId;

/// One event of the world. Envelopes are numbered from 0 in the order in which they were sent.
#[derive(Clone, Copy, Debug, PartialEq, Eq)]
pub enum Event {
    Load {
        site: SiteId,
        at: u32,
        offset: u32,
    },
    Store {
        site: SiteId,
        at: u32,
        offset: u32,
        byte: u8,
    },
    Begin {
        site: SiteId,
        request: Request,
    },
    Tick {
        site: SiteId,
    },
    Restart {
        site: SiteId,
    },
    /// Hands the envelope over; it is gone then.
    Deliver(u64),
    /// Hands the envelope over, and it may be handed over again.
    Repeat(u64),
    /// The network loses the envelope.
    Lose(u64),
}
