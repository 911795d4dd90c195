//! What an access cost.
ghost use Rattle.std.specs.Prelude.{◌≡◌, ◌+◌, ◌<◌, ◌^◌};
ghost use Rattle.shm_stepped.specs.Cost.{counted, nothing, sum_of};

use crate::event_kind::EventKind;

/// How many events were made for an access, by kind.
#[derive(Clone, Copy, Debug, PartialEq, Eq)]
pub struct Cost {
    /// How often the access was made: once, and again after each delivery to its site.
    pub accesses: u64,
    /// Ticks of any site.
    pub ticks: u64,
    /// Deliveries of an Ask.
    pub asks: u64,
    /// Deliveries of a Clear.
    pub clears: u64,
    /// Deliveries of a Cleared.
    pub cleareds: u64,
    /// Deliveries of a Hand.
    pub hands: u64,
    /// Deliveries of a Page, to read or to write.
    pub pages: u64,
    /// Deliveries of a Confirm.
    pub confirms: u64,
    /// Deliveries of messages of segment calls and purges.
    pub others: u64,
    /// All of them.
    pub events: u64,
}

impl Cost {
    /// No event was made.
    pub(crate) fn nothing() -> Cost
        ensures { result ≡ nothing }
    {
        Cost {
            accesses: 0,
            ticks: 0,
            asks: 0,
            clears: 0,
            cleareds: 0,
            hands: 0,
            pages: 0,
            confirms: 0,
            others: 0,
            events: 0,
        }
    }

    /// The cost with one event more.
    pub(crate) fn with(self, kind: EventKind) -> Cost
        requires room { self.events + 1 < 2 ^ 64 }
        requires sum { sum_of self ≡ self.events }
        ensures counted { result ≡ counted kind self }
        ensures sum { sum_of result ≡ result.events }
        ensures events { result.events ≡ self.events + 1 }
    {
        let events = self.events + 1;
        match kind {
            EventKind::Access => Cost {
                accesses: self.accesses + 1,
                events,
                ..self
            },
            EventKind::Tick => Cost {
                ticks: self.ticks + 1,
                events,
                ..self
            },
            EventKind::Ask => Cost {
                asks: self.asks + 1,
                events,
                ..self
            },
            EventKind::Clear => Cost {
                clears: self.clears + 1,
                events,
                ..self
            },
            EventKind::Cleared => Cost {
                cleareds: self.cleareds + 1,
                events,
                ..self
            },
            EventKind::Hand => Cost {
                hands: self.hands + 1,
                events,
                ..self
            },
            EventKind::Page => Cost {
                pages: self.pages + 1,
                events,
                ..self
            },
            EventKind::Confirm => Cost {
                confirms: self.confirms + 1,
                events,
                ..self
            },
            EventKind::Other => Cost {
                others: self.others + 1,
                events,
                ..self
            },
        }
    }
}
