//! What a site's process tells of itself.
ghost use Rattle.std.specs.Prelude.{◌≡◌};
ghost use Rattle.shm_process.specs.CountsOf.{counts_of};
ghost use Rattle.shm_process.specs.HealthOf.{health_in};
ghost use Rattle.shm_process.specs.NodeOf.{node_of};
ghost use Rattle.shm_process.specs.Telling.{health_of};

use crate::node::Node;
use crate::process_counts::Counts;
use crate::unopened_line_counts::Unopened;
use std::alloc::Allocator;
use std::fmt;

/// How much a site's process did since it was started, and what waits. Its steps and its clock are those of the site's whole life.
#[derive(Clone, Copy, Debug, PartialEq, Eq)]
pub struct Health {
    /// The steps of the site, those that were made again from its journal among them.
    pub steps: u64,
    /// The clock of the last step, or 0.
    pub clock: u64,
    /// The lines that made a step, or brought a block that found room.
    pub taken: u64,
    /// The lines that were passed over: those for other sites, those that are no lines, and those that the next three count.
    pub passed: u64,
    /// The asks that wait, at most 64.
    pub waiting: usize,
    /// The envelopes that made a step.
    pub received: u64,
    /// The envelopes that the site sent.
    pub sent: u64,
    /// The bytes of the site's journal; without one, those that it would have.
    pub journal: u64,
    /// When the process started, in seconds since 1970.
    pub since: u64,
    /// The lines that weren't opened, by their causes.
    pub unopened: Unopened,
}

impl<A: Allocator + Copy> Node<A> {
    /// The counts as they stand, with those of its desk.
    #[tactic(auto, using(crate::proofs::Asks::length_map))]
    pub fn health(&self, counts: Counts) -> Health
        ensures { health_in result ≡ health_of (counts_of counts) (node_of self.now) }
    {
        Health {
            steps: self.steps,
            clock: self.clock,
            taken: self.taken,
            passed: self.passed,
            waiting: self.waiting.len(),
            received: counts.received,
            sent: counts.sent,
            journal: counts.journal,
            since: counts.since,
            unopened: counts.unopened,
        }
    }
}

impl fmt::Display for Health {
    ghost use Rattle.std.specs.Prelude.{Some};
    ghost use Rattle.shm_process.specs.Health.{health_text};
    ghost use Rattle.shm_process.specs.CountsOf.{counts_of};
    ghost use Rattle.shm_process.specs.HealthOf.{health_in};

    ghost output = { λ health. Some (health_text (health_in health)) };

    /// The counts by their names, in one line.
    fn fmt<W: fmt::Write>(&self, f: &mut fmt::Formatter<W>) -> fmt::Result {
        let steps = self.steps;
        let clock = self.clock;
        let taken = self.taken;
        let passed = self.passed;
        let waiting = self.waiting;
        let received = self.received;
        let sent = self.sent;
        let journal = self.journal;
        let since = self.since;
        let Unopened {
            other_cluster,
            no_digest,
            wrong_digest,
        } = self.unopened;
        write!(
            f,
            "health steps {steps} clock {clock} taken {taken} passed {passed} waiting {waiting} received {received} sent {sent} journal {journal} since {since} other-cluster {other_cluster} no-digest {no_digest} wrong-digest {wrong_digest}"
        )
    }
}
