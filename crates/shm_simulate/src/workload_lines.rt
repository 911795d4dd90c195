//! The lines of a workload in a run, without its world.
ghost use Rattle.std.specs.Prelude.{◌≡◌, ◌<◌, Some, length, map, slice_get, vec_len, IfOk, IfSome};
ghost use Rattle.shm_simulate.specs.Lines as said;
ghost use Rattle.shm_simulate.specs.Tries.{try_of};
ghost use Rattle.shm_simulate.specs.declared.line_state.LineState.{LineState};

use crate::gave::Gave;
use crate::line_state::LineState;
use crate::reaction::Reaction;
use shm_lines::WorkloadAccess;
use shm_model::{Asked, Event};
use shm_place::SiteId;
use std::alloc::{AllocError, Global};

/// The lines of these accesses, none of which was tried.
pub(crate) fn untried(
    alloc: Global,
    accesses: &[WorkloadAccess],
) -> Result<Vec<LineState>, AllocError>
    ensures { IfOk result (λ lines. lines.items ≡ map said.untried accesses.now) }
{
    accesses
        .iter()
        .map(|access| LineState {
            access: *access,
            gave: Gave::Nothing,
            faults: 0,
            rounds: 0,
        })
        .collect(alloc)
}

/// The place of the first line of the site that isn't done.
pub(crate) fn next_line(lines: &[LineState], site: SiteId) -> Option<usize>
    ensures next { result ≡ said.next_line site lines.now }
    ensures below { IfSome result (λ place. place < length lines.now) }
{
    lines
        .iter()
        .position(|line| line.access.site == site && line.gave.is_nothing())
}

/// The event by which the site tries the line at this place.
pub(crate) fn try_at(lines: &[LineState], site: SiteId, place: usize) -> Event
    requires { place < length lines.now }
    ensures { (line : LineState) → slice_get lines.now place ≡ Some line → result ≡ try_of site line.access.asked }
{
    match lines[place].access.asked {
        Asked::Load { at, offset } => Event::Load { site, at, offset },
        Asked::Store { at, offset, byte } => Event::Store {
            site,
            at,
            offset,
            byte,
        },
    }
}

/// Keeps what the line at this place was answered.
pub(crate) fn hear(lines: &mut Vec<LineState>, place: usize, reaction: Reaction)
    requires { place < vec_len lines.old }
    ensures { lines.new.items ≡ said.heard_at reaction (Some place) lines.old.items }
{
    lines[place] = heard(lines[place], reaction);
}

fn heard(line: LineState, reaction: Reaction) -> LineState
    ensures { result ≡ said.heard reaction line }
{
    match reaction {
        Reaction::Byte(byte) => LineState {
            gave: Gave::Byte(byte),
            ..line
        },
        Reaction::Stored => LineState {
            gave: Gave::Stored,
            ..line
        },
        Reaction::Fault => LineState {
            faults: counted(line.faults),
            rounds: counted(line.rounds),
            ..line
        },
        Reaction::Waiting => LineState {
            rounds: counted(line.rounds),
            ..line
        },
        _ => line,
    }
}

/// One more, as far as numbers go.
pub(crate) fn counted(count: u32) -> u32
    ensures { result ≡ said.counted count }
{
    if count < u32::MAX { count + 1 } else { count }
}
