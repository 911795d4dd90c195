//! Counts what a desk did since its process started.
ghost use Rattle.std.specs.Prelude.{◌≡◌, if◌then◌else◌};
ghost use Rattle.shm_process.specs.Counts.{counted_on, counts_from, with_unopened};
ghost use Rattle.shm_process.specs.CountsOf.{counts_of};
ghost use Rattle.shm_process.specs.Waiting.{counted};

use crate::unopened_line_counts::Unopened;
use shm_seal::Unsealed;

/// What a process begins its counts with.
#[derive(Clone, Copy, Debug, PartialEq, Eq)]
pub struct Start {
    /// The bytes of the site's journal; 0 where it keeps none.
    pub journal: u64,
    /// When the process started, in seconds since 1970.
    pub since: u64,
}

/// What a desk counts. A count that can't be told in 64 bits stays at the greatest number.
#[derive(Clone, Copy, Debug, PartialEq, Eq)]
pub struct Counts {
    /// The lines that weren't opened, by their causes.
    pub unopened: Unopened,
    /// The envelopes that made a step.
    pub received: u64,
    /// The envelopes that the site sent.
    pub sent: u64,
    /// The bytes of the journal: those that it began with, and those that were recorded since.
    pub journal: u64,
    /// When the process started, in seconds since 1970.
    pub since: u64,
}

impl Counts {
    /// Nothing came yet.
    pub(crate) fn new(start: Start) -> Counts
        ensures { counts_of result ≡ counts_from start }
    {
        Counts {
            unopened: Unopened::none(),
            received: 0,
            sent: 0,
            journal: start.journal,
            since: start.since,
        }
    }

    /// How many envelopes the site sent.
    pub(crate) fn envelopes_sent(&self) -> u64
        ensures { result ≡ (counts_of self.now).sent }
    {
        self.sent
    }

    /// The counts after one more line that wasn't opened.
    pub(crate) fn with_unopened(&self, why: Unsealed) -> Counts
        ensures { counts_of result ≡ with_unopened why (counts_of self.now) }
    {
        Counts {
            unopened: self.unopened.with_one(why),
            received: self.received,
            sent: self.sent,
            journal: self.journal,
            since: self.since,
        }
    }

    /// The counts after so many more bytes were recorded.
    pub(crate) fn with_recorded(&self, bytes: usize) -> Counts
        ensures { counts_of result ≡ record (counts_of self.now) { journal = counted_on (counts_of self.now).journal bytes } }
    {
        Counts {
            unopened: self.unopened,
            received: self.received,
            sent: self.sent,
            journal: self.journal.saturating_add(bytes as u64),
            since: self.since,
        }
    }

    /// The counts after a step that an envelope made, or didn't, and that sent so many.
    pub(crate) fn with_step(&self, is_received: bool, sent: usize) -> Counts
        ensures { counts_of result ≡ record (counts_of self.now) {
          received = if is_received then counted self.now.received else self.now.received;
          sent = counted_on self.now.sent sent;
        } }
    {
        let received = if is_received {
            self.received.saturating_add(1)
        } else {
            self.received
        };
        Counts {
            unopened: self.unopened,
            received,
            sent: self.sent.saturating_add(sent as u64),
            journal: self.journal,
            since: self.since,
        }
    }
}
