ghost use Rattle.std.specs.Prelude.{◌≡◌, ◌==◌, [], IfOk, IsSome, length};
ghost use Rattle.shm_model.specs.Opening.{opening_of};
ghost use Rattle.shm_model.specs.World.{IsOpening};
ghost use Rattle.shm_debug.specs.Standing.{standing, world_of};
ghost use Rattle.shm_world.specs.World.{StandsFor};

use crate::checkpoints::Checkpoints;
use crate::undos::Undos;
use shm_model::Opening;
use shm_world::{Event, World};
use std::alloc::{AllocError, Allocator, Global};
use std::marker::Model;

/// A run that stands: how its world began, and the events that weren't taken back. Beside them it keeps the world that they lead to and,
/// for going back, checkpoints and what undoes the last events.
#[derive(Drop)]
pub struct Session<A: Allocator + Copy = Global> {
    pub(crate) opening: Opening,
    pub(crate) events: Vec<Event, A>,
    pub(crate) world: World<A>,
    pub(crate) checkpoints: Checkpoints<A>,
    pub(crate) undos: Undos<A>,
    pub(crate) alloc: A,
}

impl<A: Allocator + Copy> Model for Session<A> {
    ghost use Rattle.shm_model.specs.Opening.{opening_of};
    ghost use Rattle.shm_model.specs.World.{IsOpening};
    ghost use Rattle.shm_debug.specs.Checkpoints.{AllHold};
    ghost use Rattle.shm_debug.specs.Standing.{Standing, standing, world_of};
    ghost use Rattle.shm_debug.specs.Undos.{AllLeadBack};
    ghost use Rattle.shm_world.specs.World.{StandsFor};

    ghost Value = { Standing };

    ghost view = { λ s. standing (opening_of s.opening) s.events.items };

    ghost invariant = { λ s. StandsFor s.world (world_of (standing (opening_of s.opening) s.events.items))
        × AllHold (standing (opening_of s.opening) s.events.items) s.checkpoints × AllLeadBack (standing (opening_of s.opening) s.events.items) s.undos
        × IsOpening (opening_of s.opening) };
}

impl<A: Allocator + Copy> Session<A> {
    /// Begins a session without events. The pages of a segment 0 are attached at every site, to read and write, as attachment 0.
    pub fn new(alloc: A, opening: Opening) -> Result<Session<A>, AllocError>
        requires opening { IsOpening (opening_of opening) }
        requires beside { IsSome opening.frames → IsSome opening.preset }
        ensures { IfOk result (λ session. session ≡ standing (opening_of opening) []) }
    {
        let world = World::begin(alloc, &opening)?;
        let checkpoints = Checkpoints::new(alloc)?;
        let undos = Undos::new(alloc)?;
        Ok(Session {
            opening,
            events: Vec::new(alloc),
            world,
            checkpoints,
            undos,
            alloc,
        })
    }

    /// The world that the standing events lead to.
    pub fn world(&self) -> &World<A>
        ensures { StandsFor result.now (world_of self.now) }
    {
        &self.world
    }

    /// How the world began.
    pub fn opening(&self) -> Opening
        ensures { opening_of result ≡ self.now.opening }
    {
        self.opening
    }

    /// The events that stand, the oldest first.
    pub fn events(&self) -> &[Event]
        ensures { result.now ≡ self.now.events }
    {
        self.events.as_slice()
    }

    /// How many events stand.
    pub fn len(&self) -> u64
        ensures { result ≡ length self.now.events }
    {
        self.events.len() as u64
    }

    /// Checks that no event stands.
    pub fn is_empty(&self) -> bool
        ensures { result ≡ (length self.now.events == 0) }
    {
        self.events.is_empty()
    }
}
