//! A state is told, line by line.
ghost use Rattle.std.specs.Prelude.{◌≡◌, ◌<◌, false, IfOk, Option, Some};
ghost use Rattle.shm_state.specs.Part.{Part as ToldPart};
ghost use Rattle.shm_state.specs.Told.{IsWhy};
ghost use Rattle.shm_state.specs.declared.take_fault.TakeFault.{TakeFault as Wrong};
ghost use Rattle.shm_state.specs.PartOf.{part_in};
ghost use Rattle.shm_journal.specs.StageOf.{IsTelling, IsTold};
ghost use Rattle.shm_journal.specs.Stages.{Telling as Said, telling_nothing, tells};
ghost use Rattle.shm_journal.specs.StateLines.{OfEnding, OfMapping, OfPart};
ghost use Rattle.shm_journal.specs.StateOf.{ending_in, state_line_in};

use crate::state_line::{Ending, StateLine};
use shm_place::{SiteId, Sites};
use shm_process::Node;
use shm_state::{Part, TakeFault, Told};
use shm_wire::Mapping;
use std::alloc::{AllocError, Allocator, Global};

/// What a state has told so far.
#[derive(Drop)]
pub(crate) struct Telling<A: Allocator + Copy = Global> {
    pub(crate) told: Told<A>,
    pub(crate) mapped: Vec<Mapping, A>,
}

/// The outcome of one more line of a state.
#[derive(Drop)]
pub(crate) enum Onward<A: Allocator + Copy = Global> {
    /// It isn't whole yet.
    Further(Telling<A>),
    /// It is whole: the site goes on from it.
    Resumed(Node<A>),
}

impl<A: Allocator + Copy> Telling<A> {
    /// Nothing is told yet of the state of one of these sites.
    pub(crate) fn new(alloc: A, sites: Sites, me: SiteId) -> Telling<A>
        requires { me < sites }
        ensures { IsTelling result (telling_nothing sites me) }
    {
        Telling {
            told: Told::new(alloc, sites, me),
            mapped: Vec::new(alloc),
        }
    }
}

/// What a state has told, this line too. `None`: this can't be told.
pub(crate) fn tell<A: Allocator + Copy>(
    alloc: A,
    telling: Telling<A>,
    line: StateLine<A>,
) -> Result<Option<Onward<A>>, AllocError>
    ensures { (t : Said) → IsTelling telling t → IfOk result (λ onward. IsTold onward (tells t (state_line_in line))) }
{
    match line {
        StateLine::Part(part) => tell_part(telling, part),
        StateLine::Mapping(mapping) => tell_mapping(telling, mapping),
        StateLine::Ending(ending) => Ok(resume(alloc, telling, ending)),
    }
}

fn tell_part<A: Allocator + Copy>(
    telling: Telling<A>,
    part: Part<A>,
) -> Result<Option<Onward<A>>, AllocError>
    ensures { (t : Said) → IsTelling telling t → IfOk result (λ onward. IsTold onward (tells t (OfPart (part_in part)))) }
{
    let Telling { told, mapped } = telling;
    let mut told = told;
    match told.take(part) {
        Ok(()) => Ok(Some(Onward::Further(Telling { told, mapped }))),
        Err(fault) => {
            if lacks_memory(fault) {
                return Err(AllocError);
            }
            Ok(None)
        }
    }
}

/// Checks that memory was refused; else something is wrong with the part.
fn lacks_memory(fault: TakeFault) -> bool
    ensures { result ≡ false → (said_part : ToldPart) (found : Option Wrong) → IsWhy said_part fault found → found ≡ Some fault }
{
    match fault {
        TakeFault::OutOfMemory => true,
        TakeFault::OutOfOrder => false,
        TakeFault::Twice => false,
        TakeFault::Unfit => false,
    }
}

fn tell_mapping<A: Allocator + Copy>(
    telling: Telling<A>,
    mapping: Mapping,
) -> Result<Option<Onward<A>>, AllocError>
    ensures { (t : Said) → IsTelling telling t → IfOk result (λ onward. IsTold onward (tells t (OfMapping mapping))) }
{
    let Telling { told, mapped } = telling;
    let mut mapped = mapped;
    mapped.push(mapping)?;
    Ok(Some(Onward::Further(Telling { told, mapped })))
}

/// The site that goes on from what was told, if that is enough.
fn resume<A: Allocator + Copy>(alloc: A, telling: Telling<A>, ending: Ending) -> Option<Onward<A>>
    ensures { (t : Said) → IsTelling telling t → IsTold result (tells t (OfEnding (ending_in ending))) }
{
    let Telling { told, mapped } = telling;
    let Ending {
        clock,
        steps,
        caller,
    } = ending;
    let Ok(site) = told.into_site() else {
        return None;
    };
    let node = Node::restored(alloc, site, clock, steps, caller, mapped);
    Some(Onward::Resumed(node))
}
