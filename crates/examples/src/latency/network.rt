use anyhow::Result;
use shm_parts::Envelope;
use shm_place::SiteId;
use std::alloc::Global;
use std::collections::VecDeque;

/// How many milliseconds an envelope takes from one site to another. Site 2 is far away.
const DISTANCES: [[u64; 3]; 3] = [[0, 5, 40], [5, 0, 40], [40, 40, 0]];

/// An envelope on its way, and when it arrives.
#[derive(Drop)]
struct Arrival {
    time: u64,
    envelope: Envelope,
}

/// What is on its way, in the order of arrival; of two at the same time the one that was sent first comes first.
#[derive(Drop)]
pub struct Network {
    arrivals: VecDeque<Arrival>,
}

impl Network {
    /// Nothing is on its way.
    pub fn new(alloc: Global) -> Network {
        Network {
            arrivals: VecDeque::new(alloc),
        }
    }

    /// Takes an envelope that is sent at this time.
    pub fn post(&mut self, now: u64, envelope: Envelope) -> Result<()> {
        let time = now.saturating_add(distance(envelope.from, envelope.to));
        let later = self.arrivals.iter().position(|other| time < other.time);
        let place = later.unwrap_or(self.arrivals.len());
        self.arrivals.insert(place, Arrival { time, envelope })?;
        Ok(())
    }

    /// What arrives next, and when.
    pub fn next(&mut self) -> Option<(u64, Envelope)> {
        let arrival = self.arrivals.pop_front()?;
        Some((arrival.time, arrival.envelope))
    }
}

/// How far these sites are from one another.
fn distance(from: SiteId, to: SiteId) -> u64 {
    match DISTANCES.get(from.0 as usize) {
        Some(row) => row.get(to.0 as usize).copied().unwrap_or(0),
        None => 0,
    }
}
