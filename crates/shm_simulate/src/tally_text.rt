//! The text of a tally.
ghost use Rattle.std.specs.Prelude.{◌≡◌, ◌++◌, OnOk, string_bytes};
ghost use Rattle.std.specs.Fmt.{decimal};
ghost use Rattle.shm_simulate.specs.Texts as said;

use crate::gave::Gave;
use crate::measure::Measure;
use crate::outcome::Outcome;
use crate::spread::Spread;
use crate::workload_lines::counted;
use std::alloc::AllocError;

/// Appends the text of these outcomes and spreads of so many runs, of which the first had this seed.
pub(crate) fn push_tally(
    out: &mut String,
    seed: u32,
    runs: u32,
    outcomes: &[Outcome],
    spreads: &[Spread],
) -> Result<(), AllocError>
    ensures { OnOk result (string_bytes out.new ≡ string_bytes out.old ++ said.tally_text seed runs outcomes.now spreads.now) }
{
    write!(out, "runs {runs}\n")?;
    push_outcomes(out, seed, outcomes)?;
    out.push_str(
        "What no run came to is not therefore impossible.\nThe least, the median and the greatest of all runs:\n",
    )?;
    push_spreads(out, runs, spreads)
}

/// Appends the outcomes, which are numbered from 1.
fn push_outcomes(out: &mut String, seed: u32, outcomes: &[Outcome]) -> Result<(), AllocError>
    ensures { OnOk result (string_bytes out.new ≡ string_bytes out.old ++ said.outcomes_text seed 1 outcomes.now) }
{
    let mut number = 1;
    'outcomes: for outcome in outcomes {
        push_outcome(out, seed, number, outcome)?;
        number = counted(number);
    }
    Ok(())
}

/// Appends the outcome of this number.
fn push_outcome(
    out: &mut String,
    seed: u32,
    number: u32,
    outcome: &Outcome,
) -> Result<(), AllocError>
    ensures { OnOk result (string_bytes out.new ≡ string_bytes out.old ++ said.outcome_text seed number outcome.now) }
{
    let count = outcome.count;
    let its_seed = seed_of(seed, outcome.run);
    write!(out, "outcome {number} count {count} seed {its_seed}\n")?;
    push_given(out, outcome.given.as_slice())
}

/// Appends what the lines gave, the first of which is line 2.
fn push_given(out: &mut String, given: &[Gave]) -> Result<(), AllocError>
    ensures { OnOk result (string_bytes out.new ≡ string_bytes out.old ++ said.given_text 2 given.now) }
{
    let mut line = 2;
    'lines: for gave in given {
        push_gave(out, line, *gave)?;
        line = counted(line);
    }
    Ok(())
}

fn push_gave(out: &mut String, line: u32, gave: Gave) -> Result<(), AllocError>
    ensures { OnOk result (string_bytes out.new ≡ string_bytes out.old ++ said.gave_text line gave) }
{
    match gave {
        Gave::Nothing => write!(out, "line {line} gave up\n"),
        Gave::Byte(byte) => write!(out, "line {line} byte {byte}\n"),
        Gave::Stored => Ok(()),
    }
}

fn push_spreads(out: &mut String, runs: u32, spreads: &[Spread]) -> Result<(), AllocError>
    ensures { OnOk result (string_bytes out.new ≡ string_bytes out.old ++ said.spreads_text runs spreads.now) }
{
    'spreads: for spread in spreads {
        push_spread(out, runs, spread)?;
    }
    Ok(())
}

fn push_spread(out: &mut String, runs: u32, spread: &Spread) -> Result<(), AllocError>
    ensures { OnOk result (string_bytes out.new ≡ string_bytes out.old ++ said.spread_text runs spread.now) }
{
    let last = u64::from(runs.saturating_sub(1));
    push_measure(out, spread.measure)?;
    push_value(out, spread.value_at(0))?;
    push_value(out, spread.value_at(last / 2))?;
    push_value(out, spread.value_at(last))?;
    out.push_str("\n")
}

/// Appends a blank and the value, or a dash where there is none.
fn push_value(out: &mut String, value: Option<usize>) -> Result<(), AllocError>
    ensures { OnOk result (string_bytes out.new ≡ string_bytes out.old ++ said.value_text value) }
{
    match value {
        Some(value) => write!(out, " {value}"),
        None => out.push_str(" -"),
    }
}

fn push_measure(out: &mut String, measure: Measure) -> Result<(), AllocError>
    ensures { OnOk result (string_bytes out.new ≡ string_bytes out.old ++ said.measure_text measure) }
{
    match measure {
        Measure::Faults(line) => push_named(out, "line ", line, " faults"),
        Measure::Rounds(line) => push_named(out, "line ", line, " rounds"),
        Measure::Messages(kind) => {
            out.push_str("messages ")?;
            out.push_str(kind.name())
        }
        Measure::PageMessages(page) => push_named(out, "page ", page, " messages"),
        Measure::Moves(page) => push_named(out, "page ", page, " moves"),
        Measure::PageFaults(page) => push_named(out, "page ", page, " faults"),
        Measure::Ticks => out.push_str("ticks"),
    }
}

/// Appends a number between two words.
fn push_named(out: &mut String, before: &str, number: u32, after: &str) -> Result<(), AllocError>
    ensures { OnOk result (string_bytes out.new ≡ string_bytes out.old ++ (before.now ++ (decimal number ++ after.now))) }
{
    out.push_str(before)?;
    write!(out, "{number}")?;
    out.push_str(after)
}

/// The seed of the run of this number, from 0, where the first has this seed.
pub(crate) fn seed_of(seed: u32, run: u32) -> u32
    ensures { result ≡ said.seed_of seed run }
{
    seed.wrapping_add(run)
}
