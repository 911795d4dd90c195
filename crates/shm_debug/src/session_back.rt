//! Going back: the last events are taken back one by one where what they changed was kept; else the rest runs again from the latest
//! checkpoint.
ghost use Rattle.std.specs.Prelude.{◌≡◌, ◌≤◌, ◌<◌, ◌↔◌, ◌++◌, [], ◌∷◌, true, false, List, IfOk, IsErrOf, IsOk, OnErr, OnOk, length};
ghost use Rattle.shm_model.specs.Opening.{opening_of};
ghost use Rattle.shm_model.specs.World as model;
ghost use Rattle.shm_model.specs.declared.event.Event.{Event};
ghost use Rattle.shm_debug.specs.Checkpoints.{AllHold, Holds};
ghost use Rattle.shm_debug.specs.Standing.{Standing, first_events, standing, without_last, world_of};
ghost use Rattle.shm_debug.specs.Undos.{AllLeadBack};
ghost use Rattle.shm_world.specs.World.{StandsFor};

use crate::back_error::BackFault;
use crate::checkpoint::Checkpoint;
use crate::checkpoints::Checkpoints;
use crate::session::Session;
use crate::undos::Undos;
use shm_model::Opening;
use shm_world::{Event, World};
use std::alloc::{AllocError, Allocator};

/// The events between two places where a checkpoint may stay.
const STRIDE: usize = 64;

/// The checkpoint that moves is made this many events before the last one, so that a few more can be taken back from it.
const MARGIN: usize = 4;

/// A run of fewer events than these is short: it takes the checkpoint that moves.
const SHORT: usize = 128;

/// The events between two checkpoints that stay, on short runs.
const MILESTONE: usize = 1024;

impl<A: Allocator + Copy> Session<A> {
    /// Takes the last `count` events back, and answers how many stand. Where memory is refused, or fewer events stand, the events stay;
    /// only what is kept for going back may be given up.
    pub fn back(&mut self, count: u32) -> Result<u64, BackFault>
        ensures enough { OnOk result (count ≤ length self.old.events) }
        ensures left { IfOk result (λ left. left ≡ length self.new.events) }
        ensures ok { OnOk result (self.new ≡ without_last self.old count) }
        ensures none { count ≡ 0 → IsOk result }
        ensures past { IsErrOf result BackFault.PastBeginning ↔ (length self.old.events < count) }
        ensures err { OnErr result (self.new ≡ self.old) }
    {
        let count = count as usize;
        let stood = self.events.len();
        if stood < count {
            return Err(BackFault::PastBeginning);
        }
        if count == 0 {
            return Ok(stood as u64);
        }
        self.undos.note_back();
        let left = stood - count;
        if !self.take_back(count) && self.run_again(left).is_err() {
            return Err(BackFault::OutOfMemory);
        }
        Ok(left as u64)
    }

    /// Takes the last `count` events back one by one, and answers whether it did. Where less is kept of them, or memory is refused, all
    /// stays.
    fn take_back(&mut self, count: usize) -> bool
        requires { count ≤ length self.old.events }
        ensures back { result ≡ true → self.new ≡ without_last self.old count }
        ensures same { result ≡ false → self.new ≡ self.old }
    {
        let left = self.events.len() - count;
        let events = self.events.as_slice();
        if !undo_last(
            &mut self.world,
            &mut self.undos,
            self.opening,
            events,
            count,
        ) {
            return false;
        }
        self.checkpoints.drop_past(left as u64);
        self.events.truncate(left);
        true
    }

    /// Leaves the first `left` events, which run again.
    fn run_again(&mut self, left: usize) -> Result<(), AllocError>
        requires { left ≤ length self.old.events }
        ensures ok { OnOk result (self.new ≡ first_events left self.old) }
        ensures err { OnErr result (self.new ≡ self.old) }
    {
        let apart = !self.undos.likely();
        self.undos.clear();
        self.checkpoints.drop_past(left as u64);
        let events = &self.events[..left];
        let world = world_after(
            self.alloc,
            self.opening,
            &mut self.checkpoints,
            events,
            apart,
        )?;
        self.world = world;
        self.events.truncate(left);
        Ok(())
    }
}

/// Takes the last `count` of the events back one by one, and answers whether it did. Where less is kept of them, or memory is refused, all
/// stays.
fn undo_last<A: Allocator + Copy>(
    world: &mut World<A>,
    undos: &mut Undos<A>,
    opening: Opening,
    events: &[Event],
    count: usize,
) -> bool
    requires stands { StandsFor world.old (world_of (standing (opening_of opening) events.now)) }
    requires lead { AllLeadBack (standing (opening_of opening) events.now) undos.old }
    requires within { count ≤ length events.now }
    ensures back { result ≡ true → StandsFor world.new (world_of (without_last (standing (opening_of opening) events.now) count))
        × AllLeadBack (without_last (standing (opening_of opening) events.now) count) undos.new }
    ensures same { result ≡ false → StandsFor world.new (world_of (standing (opening_of opening) events.now))
        × AllLeadBack (standing (opening_of opening) events.now) undos.new }
{
    if undos.len() < count {
        return false;
    }
    let Ok(()) = world.make_room(count) else {
        return false;
    };
    'undos: for _back in 0..count {
        match undos.pop() {
            Some(undo) => world.take_back(undo),
            None => unreachable!(),
        }
    }
    true
}

/// The world after these events. Checkpoints are kept on the way; one of them moves, where the session goes back now and then, and not
/// again and again.
fn world_after<A: Allocator + Copy>(
    alloc: A,
    opening: Opening,
    checkpoints: &mut Checkpoints<A>,
    events: &[Event],
    apart: bool,
) -> Result<World<A>, AllocError>
    requires opening { model.IsOpening (opening_of opening) }
    requires checkpoints { AllHold (standing (opening_of opening) events.now) checkpoints.old }
    ensures world { IfOk result (λ world. StandsFor world (world_of (standing (opening_of opening) events.now))) }
    ensures kept { AllHold (standing (opening_of opening) events.now) checkpoints.new }
{
    let Checkpoint {
        count,
        mut world,
        moves,
    } = start_for(alloc, opening, checkpoints, events.len(), apart)?;
    let from = count as usize;
    let moving = moves || apart && events.len().saturating_sub(from) >= STRIDE;
    run_on(&mut world, events, from, moving, checkpoints)?;
    Ok(world)
}

/// Where a run to the place `last` begins. A short one takes the checkpoint that moves, if it will leave another in its place; else it
/// begins at a copy. None is taken where the session goes back again and again.
fn start_for<A: Allocator + Copy>(
    alloc: A,
    opening: Opening,
    checkpoints: &mut Checkpoints<A>,
    last: usize,
    apart: bool,
) -> Result<Checkpoint<A>, AllocError>
    requires { model.IsOpening (opening_of opening) }
    ensures start { (events : List Event) → AllHold (standing (opening_of opening) events) checkpoints.old
        → IfOk result (Holds (standing (opening_of opening) events)) }
    ensures left { (s : Standing) → AllHold s checkpoints.old → AllHold s checkpoints.new }
{
    let most = if apart { SHORT as u64 } else { 0 };
    match checkpoints.take_moving(last, MARGIN as u64 + 1, most) {
        Some(checkpoint) => Ok(checkpoint),
        None => nearest(alloc, opening, checkpoints),
    }
}

/// A copy of the latest checkpoint, or the world before the first event where there is none.
fn nearest<A: Allocator + Copy>(
    alloc: A,
    opening: Opening,
    checkpoints: &Checkpoints<A>,
) -> Result<Checkpoint<A>, AllocError>
    requires { model.IsOpening (opening_of opening) }
    ensures { (events : List Event) → AllHold (standing (opening_of opening) events) checkpoints.now
        → IfOk result (Holds (standing (opening_of opening) events)) }
{
    match checkpoints.latest() {
        Some(checkpoint) => {
            let world = checkpoint.world.copy()?;
            Ok(Checkpoint {
                count: checkpoint.count,
                world,
                moves: false,
            })
        }
        None => {
            let world = World::begin(alloc, &opening)?;
            Ok(Checkpoint {
                count: 0,
                world,
                moves: false,
            })
        }
    }
}

/// Runs the events from the place `from` on, and keeps some of the checkpoints that it passes: the nearer to the last, the more.
fn run_on<A: Allocator + Copy>(
    world: &mut World<A>,
    events: &[Event],
    from: usize,
    moving: bool,
    checkpoints: &mut Checkpoints<A>,
) -> Result<(), AllocError>
    requires { from ≤ length events.now }
    ensures world { (o : model.Opening) → StandsFor world.old (world_of (first_events from (standing o events.now)))
        → OnOk result (StandsFor world.new (world_of (standing o events.now))) }
    ensures kept { (o : model.Opening) → StandsFor world.old (world_of (first_events from (standing o events.now)))
        → AllHold (standing o events.now) checkpoints.old → AllHold (standing o events.now) checkpoints.new }
{
    'events: for index in from..events.len() {
        step_on(world, &events[index], checkpoints)?;
        keep(world, index + 1, from, events.len(), moving, checkpoints);
    }
    Ok(())
}

/// Makes one event. Before it refuses it for memory, it gives up the checkpoints.
fn step_on<A: Allocator + Copy>(
    world: &mut World<A>,
    event: &Event,
    checkpoints: &mut Checkpoints<A>,
) -> Result<(), AllocError>
    ensures led { (o : model.Opening) (before : List Event) → StandsFor world.old (model.run o before).world
        → OnOk result (StandsFor world.new (model.run o (before ++ event.now ∷ [])).world) }
    ensures kept { (s : Standing) → AllHold s checkpoints.old → AllHold s checkpoints.new }
{
    match world.step(*event) {
        Ok(_) => Ok(()),
        Err(_) => {
            checkpoints.clear();
            world.step(*event)?;
            Ok(())
        }
    }
}

/// Keeps a copy of the world after `count` events, on the way from the place `from` to `last`, if that is one of the checkpoints to keep:
/// counted in strides from the last one, the 1st, 2nd, 4th, 8th and so on. The checkpoint that moves stands for the 1st and, on a short
/// run, for all but the milestones. A short run took one away, so it mostly makes one copy. Checkpoints that stay are never taken away.
///
/// So the distance between two checkpoints is at most a milestone and a short run, or the distance to the end of the run that kept them. A
/// run makes no more events again than that, beside those made since, except where the oldest checkpoint went because there were too many.
/// Where memory is refused nothing is kept.
fn keep<A: Allocator + Copy>(
    world: &World<A>,
    count: usize,
    from: usize,
    last: usize,
    moving: bool,
    checkpoints: &mut Checkpoints<A>,
)
    requires from { from ≤ last }
    requires within { count ≤ last }
    ensures { (s : Standing) → count ≤ length s.events → StandsFor world.now (world_of (first_events count s)) → AllHold s checkpoints.old
        → AllHold s checkpoints.new }
{
    let to_the_last = last - count;
    let strides = to_the_last / STRIDE;
    let moves = moving && to_the_last == MARGIN;
    let stays = if moving && last - from < SHORT {
        count % MILESTONE == 0
    } else {
        count % STRIDE == 0 && (strides + 1).is_power_of_two() && !(moving && strides == 0)
    };
    if !(moves || stays) {
        return;
    }
    if let Ok(copy) = world.copy() {
        checkpoints.keep(Checkpoint {
            count: count as u64,
            world: copy,
            moves,
        });
    }
}
