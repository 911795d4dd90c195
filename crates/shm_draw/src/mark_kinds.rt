//! The mark that an event draws.
use crate::message_label::Word;
use shm_place::{PageId, SiteId};

/// An envelope's way, as an arrow shows it.
#[derive(Clone, Copy, Debug, PartialEq, Eq)]
pub struct Way {
    /// The envelope's number.
    pub number: u64,
    /// The number of the event that sent it.
    pub origin: u64,
    /// The site that sent it.
    pub from: SiteId,
    /// The site that it is for.
    pub to: SiteId,
    /// The name of its message.
    pub word: Word,
}

/// How an envelope's way ends.
#[derive(Clone, Copy, Debug, PartialEq, Eq)]
pub enum End {
    /// It was handed over.
    HandedOver,
    /// It was handed over, and may be once more.
    Repeated,
    /// The network lost it.
    Lost,
    /// It is still on its way after the last event.
    OnItsWay,
}

/// An event at one site, without an envelope.
#[derive(Clone, Copy, Debug, PartialEq, Eq)]
pub enum Symbol {
    /// A load, a store, or the beginning of a segment call.
    Request,
    Tick,
    Restart,
}

/// The mark that an event draws on the picture of a page.
#[derive(Clone, Copy, Debug, PartialEq, Eq)]
pub enum Mark {
    /// Something at a site.
    At(SiteId, Symbol),
    /// The way of the envelope that it hands over or loses, and which of these it does.
    Arrow(Way, End),
    /// Only the page that the event is about, if it is another one.
    Elsewhere(PageId),
    /// There is no such envelope, or no such site.
    Nowhere,
}
