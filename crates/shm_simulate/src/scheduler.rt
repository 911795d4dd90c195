//! What happens next in a run is drawn.
ghost use Rattle.std.specs.Prelude.{◌≡◌, ◌<◌, true};
ghost use Rattle.shm_simulate.specs.Tries.{may_choose};

use crate::odds::Odds;
use rand_core::utils::NextWord;
use rand_pcg::Lcg64Xsh32;
use shm_place::{SiteId, Sites};
use std::alloc::{AllocError, Global};

/// The generator's stream, which is the same in all runs.
const STREAM: u64 = 0;

/// What the caller of a site does.
#[derive(Clone, Copy, Debug, PartialEq, Eq)]
enum Caller {
    /// It may try its next line.
    Ready,
    /// It tried, and waits until its site has made a step.
    Waits,
    /// It has no further line.
    Done,
}

/// What happens next.
#[derive(Clone, Copy, Debug, PartialEq, Eq)]
pub(crate) enum Choice {
    /// The site's caller tries its next line.
    Line(SiteId),
    Restart(SiteId),
    /// The envelope is handed over, and is gone then.
    Deliver(u64),
    /// The envelope is handed over, and stays on its way.
    Repeat(u64),
    Lose(u64),
    /// Nothing else can happen: the site ticks.
    Tick(SiteId),
}

/// What may happen in a run, and the generator by which one of it is chosen. Each caller that is ready and each envelope on its way has the
/// same chance.
#[derive(Drop)]
pub(crate) struct Scheduler {
    sites: u32,
    draws: Lcg64Xsh32,
    callers: Vec<Caller>,
    on_way: Vec<u64>,
    /// How many envelopes were sent when it looked last.
    sent: u64,
}

impl Scheduler {
    /// That of a run in which nothing has happened. The generator begins at the seed.
    pub(crate) fn new(alloc: Global, sites: Sites, seed: u32) -> Result<Scheduler, AllocError> {
        let sites = sites.count();
        let mut callers = Vec::with_capacity(alloc, sites as usize)?;
        'sites: for _ in 0..sites {
            callers.push(Caller::Ready)?;
        }
        Ok(Scheduler {
            sites,
            draws: Lcg64Xsh32::new(u64::from(seed), STREAM),
            callers,
            on_way: Vec::with_capacity(alloc, 16)?,
            sent: 0,
        })
    }

    /// Draws what happens next. An envelope that is to be gone is on its way no more.
    pub(crate) fn choose(&mut self, odds: Odds) -> Choice
        ensures { may_choose odds result ≡ true }
    {
        if odds.restart > 0 && self.draw(100) < odds.restart {
            return Choice::Restart(self.draw_site());
        }
        let ready = self.count_ready();
        let choices = ready.saturating_add(self.on_way.len());
        if choices == 0 {
            return Choice::Tick(self.draw_site());
        }
        let drawn = self.draw_index(choices);
        if drawn < ready {
            return Choice::Line(self.ready_site(drawn));
        }
        self.fate_of(drawn - ready, odds)
    }

    /// Draws what happens to the envelope at this place of those on their way.
    fn fate_of(&mut self, place: usize, odds: Odds) -> Choice
        ensures { may_choose odds result ≡ true }
    {
        let Some(number) = self.on_way.get(place).copied() else {
            return Choice::Tick(self.draw_site());
        };
        if odds.lose > 0 || odds.repeat > 0 {
            if self.draw(100) < odds.repeat {
                return Choice::Repeat(number);
            }
            if self.draw(100) < odds.lose {
                self.remove(place);
                return Choice::Lose(number);
            }
        }
        self.remove(place);
        Choice::Deliver(number)
    }

    fn remove(&mut self, place: usize) {
        if place < self.on_way.len() {
            let _number = self.on_way.swap_remove(place);
        }
    }

    /// The site made a step: its caller may try again, if it waits.
    pub(crate) fn stepped(&mut self, site: SiteId) {
        self.set(site, Caller::Waits, Caller::Ready);
    }

    /// The site's caller was told to wait.
    pub(crate) fn waits(&mut self, site: SiteId) {
        self.set(site, Caller::Ready, Caller::Waits);
    }

    /// The site's caller has no further line.
    pub(crate) fn done(&mut self, site: SiteId) {
        self.set(site, Caller::Ready, Caller::Done);
    }

    /// The caller of the site, if it does this, now does that.
    fn set(&mut self, site: SiteId, from: Caller, to: Caller) {
        if let Some(caller) = self.callers.get_mut(site.0 as usize)
            && *caller == from
        {
            *caller = to;
        }
    }

    /// So many envelopes were sent by now: those that are new are on their way.
    pub(crate) fn look(&mut self, sent: u64) -> Result<(), AllocError> {
        'numbers: for number in self.sent..sent {
            self.on_way.push(number)?;
        }
        self.sent = sent;
        Ok(())
    }

    fn count_ready(&self) -> usize {
        self.callers
            .iter()
            .filter(|caller| **caller == Caller::Ready)
            .count()
    }

    /// The site of the ready caller that has so many ready ones before it; site 0 if there is none.
    fn ready_site(&self, before: usize) -> SiteId {
        let mut left = before;
        'sites: for (number, caller) in (0..self.sites).zip(self.callers.iter()) {
            if *caller == Caller::Ready {
                if left == 0 {
                    return SiteId(number);
                }
                left -= 1;
            }
        }
        SiteId(0)
    }

    fn draw_site(&mut self) -> SiteId {
        let sites = self.sites;
        if sites == 0 {
            return SiteId(0);
        }
        SiteId(self.draw(sites))
    }

    /// Draws a number below this one.
    fn draw(&mut self, below: u32) -> u32
        requires { 0 < below }
        ensures { result < below }
    {
        self.draws.next_word() % below
    }

    /// Draws an index below this number.
    fn draw_index(&mut self, below: usize) -> usize
        requires { 0 < below }
        ensures { result < below }
    {
        self.draws.next_word() as usize % below
    }
}
