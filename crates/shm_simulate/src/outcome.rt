//! The outcomes of runs.
ghost use Rattle.std.specs.Prelude.{◌≡◌, ◌<◌, ◌++◌, ◌∷◌, [], ℕ, List, Some, false, true, length, map, slice_get, slice_set, vec_len, IfNone, IfOk, IfSome, OnOk};
ghost use Rattle.shm_model.specs.declared.event.Event.{Event};
ghost use Rattle.std.specs.List.{list_all, zip};
ghost use Rattle.shm_simulate.specs.Lines.{counted as counted_of};
ghost use Rattle.shm_simulate.specs.Outcomes as said;
ghost use Rattle.shm_simulate.specs.Outcomes.{agrees, same_given, Tallied};
ghost use Rattle.shm_simulate.specs.declared.gave.Gave.{Gave};
ghost use Rattle.shm_simulate.specs.declared.line_state.LineState.{LineState};
ghost use Rattle.shm_simulate.specs.declared.outcome.Outcome.{Outcome};

use crate::gave::Gave;
use crate::line_state::LineState;
use crate::workload_lines::counted;
use shm_model::Event;
use std::alloc::{AllocError, Global};

/// An outcome of a workload, and how often runs came to it.
#[derive(Drop)]
pub struct Outcome {
    /// What each line gave, in the order of the lines.
    pub given: Vec<Gave>,
    /// How many runs came to it.
    pub count: u32,
    /// The number of the first of these runs.
    pub run: u32,
    /// That run's events, the oldest first.
    pub events: Vec<Event>,
}

/// Adds the outcome of the run of this number, which had these events and left these lines.
pub(crate) fn add(
    alloc: Global,
    outcomes: &mut Vec<Outcome>,
    run: u32,
    lines: &[LineState],
    events: Vec<Event>,
) -> Result<(), AllocError>
    requires { run < 4294967295 }
    ensures { (givens : List (List Gave)) (schedules : List (List Event)) → Tallied givens schedules outcomes.old.items
        → length givens ≡ run → length schedules ≡ run
        → OnOk result (Tallied (givens ++ map (λ (line : LineState). line.gave) lines.now ∷ []) (schedules ++ events.items ∷ []) outcomes.new.items) }
{
    match place_of(outcomes.as_slice(), lines) {
        Some(place) => {
            count_one(outcomes, place);
            Ok(())
        }
        None => {
            let given = given_by(alloc, lines)?;
            outcomes.push(Outcome {
                given,
                count: 1,
                run,
                events,
            })?;
            Ok(())
        }
    }
}

/// What these lines gave.
fn given_by(alloc: Global, lines: &[LineState]) -> Result<Vec<Gave>, AllocError>
    ensures { IfOk result (λ given. given.items ≡ map (λ (line : LineState). line.gave) lines.now) }
{
    lines.iter().map(|line| line.gave).collect(alloc)
}

/// One run more came to the outcome at this place.
fn count_one(outcomes: &mut Vec<Outcome>, place: usize)
    requires { place < vec_len outcomes.old }
    ensures { (outcome : Outcome) → slice_get outcomes.old.items place ≡ Some outcome
        → outcomes.new.items ≡ slice_set outcomes.old.items place (record outcome { count = counted_of outcome.count }) }
{
    let outcome = &mut outcomes[place];
    outcome.count = counted(outcome.count);
}

/// The place of the outcome of these lines.
fn place_of(outcomes: &[Outcome], lines: &[LineState]) -> Option<usize>
    ensures below { IfSome result (λ place. place < length outcomes.now) }
    ensures found { IfSome result (λ place. (outcome : Outcome) → slice_get outcomes.now place ≡ Some outcome
        → same_given outcome.given.items (map (λ (line : LineState). line.gave) lines.now) ≡ true) }
    ensures missing { IfNone result ((place : ℕ) (outcome : Outcome) → slice_get outcomes.now place ≡ Some outcome
        → same_given outcome.given.items (map (λ (line : LineState). line.gave) lines.now) ≡ false) }
{
    'outcomes: for (place, outcome) in outcomes.iter().enumerate() {
        if is_outcome(outcome.given.as_slice(), lines) {
            return Some(place);
        }
    }
    None
}

/// Checks that these lines gave this.
fn is_outcome(given: &[Gave], lines: &[LineState]) -> bool
    ensures { result ≡ same_given given.now (map (λ (line : LineState). line.gave) lines.now) }
{
    given.len() == lines.len() && agree(given, lines)
}

/// Checks that these lines gave this, as far as both go.
fn agree(given: &[Gave], lines: &[LineState]) -> bool
    ensures { result ≡ list_all agrees (zip given.now lines.now) }
{
    given
        .iter()
        .zip(lines.iter())
        .all(|(gave, line)| same_gave(*gave, line.gave))
}

fn same_gave(one: Gave, other: Gave) -> bool
    ensures { result ≡ said.same_gave one other }
{
    match (one, other) {
        (Gave::Nothing, Gave::Nothing) => true,
        (Gave::Byte(one), Gave::Byte(other)) => one == other,
        (Gave::Stored, Gave::Stored) => true,
        _ => false,
    }
}
