//! Taking an event back: what it may change is kept before it is made, and put back.
ghost use Rattle.std.specs.Prelude.{◌≡◌, ◌+◌, ◌<◌, ◌≤◌, ◌||◌, ℕ, Bool, false, true, None, Some, IfOk, IsOk, OnErr, OnOk, length};
ghost use Rattle.shm_model.specs.Message as input;
ghost use Rattle.shm_model.specs.World as model;
ghost use Rattle.shm_parts.specs.Message.{envelope_of};
ghost use Rattle.shm_world.specs.Undo.{Fits, LeadsBack, brings_page, has_receiver, has_site, room_in, undo_may_grow};
ghost use Rattle.shm_world.specs.World.{StandsFor};

use crate::undo_record::Undo;
use crate::world::World;
use shm_model::Event;
use shm_parts::Envelope;
use shm_place::SiteId;
use std::alloc::{AllocError, Allocator};

impl<A: Allocator + Copy> World<A> {
    /// Keeps what this event may change, as it is now. After the event, this takes it back. Copies only the site that is stepped, and none
    /// for a tick.
    pub fn undo_for(&self, event: &Event) -> Result<Undo<A>, AllocError>
        ensures back { (w : model.World) → StandsFor self.now w → IfOk result (λ undo. LeadsBack undo (model.next w event.now).world w) }
        ensures memory { (w : model.World) → StandsFor self.now w → OnErr result (undo_may_grow w event.now ≡ true) }
    {
        match *event {
            Event::Load { site, .. } => self.undo_step(site),
            Event::Store { site, .. } => self.undo_step(site),
            Event::Begin { site, .. } => self.undo_step(site),
            Event::Tick { .. } => Ok(self.undo_sending()),
            Event::Restart { site } => self.undo_step(site),
            Event::Deliver(number) => self.undo_delivery(number),
            Event::Repeat(number) => self.undo_repeat(number),
            Event::Lose(number) => self.undo_loss(number),
        }
    }

    /// Makes room to take this many events back. The world stays as it is, even where memory is refused.
    pub fn make_room(&mut self, count: usize) -> Result<(), AllocError>
        ensures room { OnOk result (count ≤ room_in self.new) }
        ensures succeeds { count ≤ room_in self.old → IsOk result }
        ensures kept { room_in self.old ≤ room_in self.new }
        ensures same { (w : model.World) → StandsFor self.old w → StandsFor self.new w }
    {
        self.network.make_room(count)
    }

    /// Takes back the event that was made last, by what was kept before it. It takes no memory except the room that was made.
    pub fn take_back(&mut self, undo: Undo<A>)
        requires room { 0 < room_in self.old }
        requires fits { Fits self.old.members.count undo.site }
        ensures back { (after before : model.World) → StandsFor self.old after → LeadsBack undo after before → StandsFor self.new before }
        ensures room { room_in self.old ≤ room_in self.new + 1 }
    {
        let Undo { site, taken, sent } = undo;
        self.network.go_back(sent, taken);
        if let Some(kept) = site {
            self.members.put(kept);
        }
    }

    /// For an event that steps a site.
    fn undo_step(&self, site: SiteId) -> Result<Undo<A>, AllocError>
        ensures step { (w : model.World) (gone : ℕ → Bool) (i : input.Input) → StandsFor self.now w → ((k : ℕ) → length w.sent ≤ k → gone k ≡ false)
            → IfOk result (λ undo. LeadsBack undo (model.step_at (record w { gone = gone }) site i).world (record w { gone = gone })) }
        ensures none { IfOk result (λ undo. undo.taken ≡ None) }
        ensures memory { (w : model.World) → StandsFor self.now w → OnErr result (has_site w site ≡ true) }
    {
        let site = self.members.copy_of(site)?;
        Ok(Undo {
            site,
            taken: None,
            sent: self.network.sent(),
        })
    }

    /// For an event that changes no site and takes nothing off its way: it only sends.
    fn undo_sending(&self) -> Undo<A>
        ensures sends { (w after : model.World) → StandsFor self.now w → after.count ≡ w.count → after.sites ≡ w.sites
            → ((k : ℕ) → k < length w.sent → model.live after k ≡ model.live w k) → LeadsBack result after w }
        ensures lost { (w : model.World) (number : ℕ) → StandsFor self.now w → number < length w.sent
            → LeadsBack result (model.without w number) (model.without w number) }
        ensures none { result.taken ≡ None }
    {
        Undo {
            site: None,
            taken: None,
            sent: self.network.sent(),
        }
    }

    /// For the delivery of the envelope of this number.
    fn undo_delivery(&self, number: u64) -> Result<Undo<A>, AllocError>
        ensures back { (w : model.World) → StandsFor self.now w → IfOk result (λ undo. LeadsBack undo (model.deliver (model.live w number) w number).world w) }
        ensures memory { (w : model.World) → StandsFor self.now w
            → OnErr result ((has_receiver w (model.live w number) || brings_page (model.live w number)) ≡ true) }
    {
        let Some(envelope) = self.network.envelope(number) else {
            return Ok(self.undo_sending());
        };
        let undo = self.undo_step(envelope.to)?;
        also_taking(undo, number, envelope)
    }

    /// For its repeat.
    fn undo_repeat(&self, number: u64) -> Result<Undo<A>, AllocError>
        ensures back { (w : model.World) → StandsFor self.now w → IfOk result (λ undo. LeadsBack undo (model.hand_over (model.live w number) w).world w) }
        ensures memory { (w : model.World) → StandsFor self.now w → OnErr result (has_receiver w (model.live w number) ≡ true) }
    {
        let Some(envelope) = self.network.envelope(number) else {
            return Ok(self.undo_sending());
        };
        self.undo_step(envelope.to)
    }

    /// For its loss.
    fn undo_loss(&self, number: u64) -> Result<Undo<A>, AllocError>
        ensures back { (w : model.World) → StandsFor self.now w → IfOk result (λ undo. LeadsBack undo (model.lose (model.live w number) w number).world w) }
        ensures memory { (w : model.World) → StandsFor self.now w → OnErr result (brings_page (model.live w number) ≡ true) }
    {
        let Some(envelope) = self.network.envelope(number) else {
            return Ok(self.undo_sending());
        };
        also_taking(self.undo_sending(), number, envelope)
    }
}

/// The same for an event that takes this envelope off its way too.
fn also_taking<A: Allocator + Copy>(
    undo: Undo<A>,
    number: u64,
    envelope: &Envelope<A>,
) -> Result<Undo<A>, AllocError>
    ensures back { (w after : model.World) → undo.taken ≡ None → model.live w number ≡ Some (envelope_of envelope.now)
        → ((k : ℕ) → length w.sent ≤ k → w.gone k ≡ false) → LeadsBack undo after (model.without w number) → IfOk result (λ undo. LeadsBack undo after w) }
    ensures memory { OnErr result (brings_page (Some (envelope_of envelope.now)) ≡ true) }
{
    let envelope = envelope.copy()?;
    Ok(Undo {
        taken: Some((number, envelope)),
        ..undo
    })
}
