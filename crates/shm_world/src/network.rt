//! The network between sites: the envelopes that are on their way, each under its number. Events make it lose, repeat and reorder them.
ghost use Rattle.std.specs.Prelude.{◌≡◌, ℕ, ◌+◌, ◌<◌, ◌≤◌, Bool, false, true, [], List, None, length, slice_get, Some, is_some, IfNone, IfOk, IfSome, IsOk, OnOk};
ghost use Rattle.std.specs.Option.{option_copied};
ghost use Rattle.shm_model.specs.Basics.{at};
ghost use Rattle.shm_model.specs.Message as model;
ghost use Rattle.shm_parts.specs.Message.{envelope_of};

use crate::numbered_values::ByNumber;
use shm_parts::{Envelope, Outbox};
use std::alloc::{AllocError, Allocator, Global};

/// The envelopes that are on their way, each under its number, and how many were ever sent. A place is empty while a site has its envelope,
/// as it may give it back.
#[derive(Drop)]
pub struct Network<A: Allocator + Copy = Global> {
    pub(crate) envelopes: ByNumber<Envelope<A>, A>,
}

impl<A: Allocator + Copy> Network<A> {
    ghost use Rattle.shm_world.specs.Network.{envelope_at, on_way, sent_before, Carries, StandsAt};
    ghost use Rattle.shm_world.specs.Undo.{with_envelope};

    /// No envelope was sent.
    pub fn new(alloc: A) -> Network<A>
        ensures { Carries result [] (λ _. false) }
    {
        Network {
            envelopes: ByNumber::new(alloc),
        }
    }

    /// How many envelopes were ever sent.
    pub fn sent(&self) -> u64
        ensures count { (sent : List model.Envelope) (gone : ℕ → Bool) → Carries self.now sent gone → result ≡ length sent }
        ensures same { result ≡ self.now.envelopes.next }
    {
        self.envelopes.next()
    }

    /// The envelope of this number, if it is on its way.
    pub fn envelope(&self, number: u64) -> Option<&Envelope<A>>
        ensures { envelope_at (option_copied result) ≡ on_way self.now number }
    {
        self.envelopes.get(number)
    }

    /// Takes the envelope out of its place, which stays, and answers the place. None: it isn't on its way, and nothing changes.
    #[inline(always)]
    pub fn take_out(&mut self, number: u64) -> Option<(usize, Envelope<A>)>
        ensures envelope { IfSome result (λ taken. on_way self.old number ≡ Some (envelope_of taken.1)) }
        ensures none { IfNone result (on_way self.old number ≡ None) }
        ensures after { (sent : List model.Envelope) (gone : ℕ → Bool) → Carries self.old sent gone → Carries self.new sent (at gone number true) }
        ensures missing { IfNone result ((sent : List model.Envelope) (gone : ℕ → Bool) → Carries self.old sent gone → Carries self.new sent gone) }
        ensures place { IfSome result (λ taken. StandsAt number taken.0 self.new) }
    {
        self.envelopes.take(number)
    }

    /// Puts back what was taken out of this place.
    pub fn put_back(&mut self, place: usize, envelope: Envelope<A>)
        ensures { (number : ℕ) (sent : List model.Envelope) (gone : ℕ → Bool) → StandsAt number place self.old → Carries self.old sent (at gone number true)
            → gone number ≡ false → slice_get sent number ≡ Some (envelope_of envelope) → Carries self.new sent gone }
    {
        self.envelopes.put_back(place, envelope);
    }

    /// Gives up the empty places, if they are many. Keeps the envelopes.
    #[inline(always)]
    pub fn sweep(&mut self)
        ensures { (sent : List model.Envelope) (gone : ℕ → Bool) → Carries self.old sent gone → Carries self.new sent gone }
    {
        self.envelopes.sweep();
    }

    /// Gives the envelope up, and answers whether it was on its way.
    pub fn lose(&mut self, number: u64) -> bool
        ensures was { result ≡ is_some (on_way self.old number) }
        ensures after { (sent : List model.Envelope) (gone : ℕ → Bool) → Carries self.old sent gone → Carries self.new sent (at gone number true) }
        ensures missing { result ≡ false → (sent : List model.Envelope) (gone : ℕ → Bool) → Carries self.old sent gone → Carries self.new sent gone }
    {
        match self.take_out(number) {
            Some(_) => {
                self.sweep();
                true
            }
            None => false,
        }
    }

    /// Makes room to put this many envelopes back on their way. Keeps the envelopes.
    pub(crate) fn make_room(&mut self, count: usize) -> Result<(), AllocError>
        ensures room { OnOk result (count ≤ self.new.envelopes.spare) }
        ensures succeeds { count ≤ self.old.envelopes.spare → IsOk result }
        ensures kept { self.old.envelopes.spare ≤ self.new.envelopes.spare }
        ensures same { (sent : List model.Envelope) (gone : ℕ → Bool) → Carries self.old sent gone → Carries self.new sent gone }
    {
        self.envelopes.reserve(count)
    }

    /// Goes back to when this many had been sent, and puts the envelope that was taken off its way back on it. That is one of these, and
    /// there is room for it.
    pub(crate) fn go_back(&mut self, sent: u64, taken: Option<(u64, Envelope<A>)>)
        requires { 0 < self.old.envelopes.spare }
        ensures live { IfSome taken (λ t. t.0 < sent) → (k : ℕ) → on_way self.new k ≡ with_envelope taken (sent_before sent self.old) k }
        ensures sent { self.new.envelopes.next ≡ sent }
        ensures room { self.old.envelopes.spare ≤ self.new.envelopes.spare + 1 }
    {
        self.envelopes.forget_from(sent);
        if let Some((number, envelope)) = taken
            && number < sent
        {
            self.envelopes.put(number, envelope);
        }
    }

    /// An equal network.
    pub fn copy(&self) -> Result<Network<A>, AllocError>
        ensures { IfOk result (λ copy. (sent : List model.Envelope) (gone : ℕ → Bool) → Carries self.now sent gone → Carries copy sent gone) }
    {
        let sent = self.sent();
        let mut envelopes = ByNumber::new(*self.envelopes.allocator());
        envelopes.reserve(self.envelopes.as_slice().len())?;
        'places: for place in self.envelopes.as_slice() {
            if let Some(envelope) = &place.value {
                envelopes.push_at(place.number, envelope.copy()?);
            }
        }
        envelopes.pass_to(sent);
        Ok(Network { envelopes })
    }
}

impl<A: Allocator + Copy> Outbox<Envelope<A>> for Network<A> {
    ghost use Rattle.shm_world.specs.Network.{CarriesOn, room_of};
    ghost use Rattle.shm_world.specs.Posting.{carries_nothing, carries_both};

    ghost posted = { CarriesOn };

    ghost room = { room_of };

    ghost nothing = { carries_nothing };

    ghost joined = { carries_both };

    /// Where no numbers are left, which no memory is large enough for, it is refused too.
    fn reserve(&mut self, additional: usize) -> Result<(), AllocError> {
        if self.sent().checked_add(additional as u64).is_none() {
            return Err(AllocError);
        }
        self.envelopes.reserve(additional)
    }

    #[inline(always)]
    fn push(&mut self, envelope: Envelope<A>) {
        self.envelopes.push(envelope);
    }
}
