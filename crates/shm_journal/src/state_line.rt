//! The lines of a state that a journal begins with.
ghost use Rattle.std.specs.Prelude.{◌≤◌};

use shm_state::Part;
use shm_wire::{Mapping, Tag};
use std::alloc::{Allocator, Global};

/// The end of a state: where the site's steps go on.
#[derive(Clone, Copy)]
pub struct Ending {
    /// The clock of the last step, or 0.
    pub(crate) clock: u64,
    /// How many steps were made.
    pub(crate) steps: u64,
    /// The tag of the caller whose segment call is outstanding.
    pub(crate) caller: Option<Tag>,
    ghost each_step_counts: { steps ≤ clock },
}

/// A line of a state.
#[derive(Drop)]
pub enum StateLine<A: Allocator + Copy = Global> {
    /// A part of the site's state.
    Part(Part<A>),
    /// A page that the site's machine maps.
    Mapping(Mapping),
    /// The state is whole.
    Ending(Ending),
}
