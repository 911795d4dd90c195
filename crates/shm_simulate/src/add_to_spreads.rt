//! What came of many runs.
ghost use Rattle.std.specs.Prelude.{◌≡◌, ◌≢◌, ◌<◌, ◌++◌, ◌∷◌, [], ℕ, List, Some, length, map, slice_get, vec_len, OnOk};
ghost use Rattle.shm_model.specs.declared.event.Event.{Event};
ghost use Rattle.shm_simulate.specs.Measures.{value_in};
ghost use Rattle.shm_simulate.specs.Spreads.{AddsAt, AreSpreads};
ghost use Rattle.shm_simulate.specs.declared.measure.Measure.{Measure};
ghost use Rattle.shm_simulate.specs.declared.spread.Spread.{Spread};

use crate::line_state::LineState;
use crate::measure::value;
use crate::page_message::PageMessage;
use crate::spread::Spread;
use shm_model::Event;
use std::alloc::AllocError;

/// Adds the values of a run that left these lines, and in which these messages were handed over, to all spreads.
pub(crate) fn add_values(
    spreads: &mut Vec<Spread>,
    lines: &[LineState],
    messages: &[PageMessage],
    events: &[Event],
) -> Result<(), AllocError>
    ensures spreads { (values : Measure → List ℕ) → AreSpreads values spreads.old.items → ((m : Measure) → length (values m) < 4294967295)
        → OnOk result (AreSpreads (λ m. values m ++ value_in m lines.now messages.now events.now ∷ []) spreads.new.items) }
    ensures measures { map (λ (spread : Spread). spread.measure) spreads.new.items ≡ map (λ (spread : Spread). spread.measure) spreads.old.items }
{
    'spreads: for place in 0..spreads.len() {
        add_value(spreads, place, lines, messages, events)?;
    }
    Ok(())
}

/// The same for the spread at this place.
fn add_value(
    spreads: &mut Vec<Spread>,
    place: usize,
    lines: &[LineState],
    messages: &[PageMessage],
    events: &[Event],
) -> Result<(), AllocError>
    requires { place < vec_len spreads.old }
    ensures long { vec_len spreads.new ≡ vec_len spreads.old }
    ensures others { (k : ℕ) → k ≢ place → slice_get spreads.new.items k ≡ slice_get spreads.old.items k }
    ensures measures { map (λ (spread : Spread). spread.measure) spreads.new.items ≡ map (λ (spread : Spread). spread.measure) spreads.old.items }
    ensures added { (old : Spread) → slice_get spreads.old.items place ≡ Some old
        → OnOk result (AddsAt place spreads.new.items old (value_in old.measure lines.now messages.now events.now)) }
{
    let spread = &mut spreads[place];
    let value = value(spread.measure, lines, messages, events);
    spread.add(value)
}
