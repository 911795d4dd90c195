//! The handle of a world that C holds.
ghost use Rattle.std.specs.Prelude.{◌≡◌, Option, None, Some, MatchOption};
ghost use Rattle.std.specs.declared.alloc.Global.{Global};
ghost use Rattle.shm_c.specs.Held.{world_code};
ghost use Rattle.shm_c.specs.Played.{Became};
ghost use Rattle.shm_world.specs.declared.world.World.{World};

use crate::loose::Loose;
use crate::numbers::Outcome;
use shm_model::Event;
use shm_world::World;
use std::alloc::Global;
use std::marker::Model;
use std::mem::replace;
use std::ptr::null_mut;

/// A world that C holds: the pointer is null, or that of a box with the world. The ghost field has the world.
#[repr(C)]
#[derive(Drop)]
pub struct WorldHandle {
    at: *mut u8,
    ghost world: { Option (World Global) } by { world_code },
}

impl Model for WorldHandle {
    ghost use Rattle.shm_c.specs.Held.{held_world};

    ghost also_owns = { λ handle. held_world handle.at handle.world };
}

impl WorldHandle {
    /// An empty handle.
    fn none() -> WorldHandle
        ensures { result.world ≡ None }
    {
        WorldHandle { at: null_mut() }
    }

    /// The handle of the world.
    fn of_loose(value: Loose<World, Global>) -> WorldHandle
        ensures { result.world ≡ Some value.value }
    {
        let Loose { at, alloc: _ } = value;
        WorldHandle {
            at: at.cast::<u8>(),
        }
    }

    /// The world, if there is one.
    fn into_loose(self, alloc: Global) -> Option<Loose<World, Global>>
        ensures { MatchOption result (self.world ≡ None) (λ loose. self.world ≡ Some loose.value) }
    {
        let WorldHandle { at } = self;
        if at.is_null() {
            None
        } else {
            Some(Loose {
                at: at.cast::<World>(),
                alloc,
            })
        }
    }

    /// Takes the world out, and leaves the handle empty.
    pub(crate) fn take(&mut self, alloc: Global) -> Option<Box<World>>
        ensures now { self.new.world ≡ None }
        ensures was { MatchOption result (self.old.world ≡ None) (λ world. self.old.world ≡ Some world.value) }
    {
        match replace(self, WorldHandle::none()).into_loose(alloc) {
            Some(loose) => Some(loose.into_box()),
            None => None,
        }
    }

    /// Puts a world in. The handle is empty.
    pub(crate) fn put(&mut self, world: Box<World>)
        requires { self.old.world ≡ None }
        ensures { self.new.world ≡ Some world.value }
    {
        *self = WorldHandle::of_loose(Loose::of(world));
    }

    /// One event.
    pub(crate) fn step(&mut self, alloc: Global, event: Event) -> Outcome
        ensures { Became self.old.world self.new.world event result }
    {
        let Some(mut world) = self.take(alloc) else {
            return Outcome::NoWorld;
        };
        let answer = world.step(event);
        self.put(world);
        match answer {
            Ok(answer) => Outcome::Made(answer),
            Err(_) => Outcome::NoMemory,
        }
    }
}
