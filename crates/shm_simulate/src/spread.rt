//! How a number is spread over runs.
ghost use Rattle.std.specs.Prelude.{◌≡◌, ◌+◌, ◌<◌, ◌++◌, ◌∷◌, [], ℕ, List, length, slice_index, slice_set, vec_len, OnOk};
ghost use Rattle.shm_simulate.specs.Lines as said;
ghost use Rattle.shm_simulate.specs.Spreads.{IsSpread, ranked};

use crate::measure::Measure;
use crate::workload_lines::counted;
use std::alloc::{AllocError, Global};

/// How a measure is spread over runs: how many runs have each value.
#[derive(Drop)]
pub struct Spread {
    pub measure: Measure,
    /// At each value the number of runs that have it. None has a greater one.
    pub counts: Vec<u32>,
}

impl Spread {
    /// Of no runs.
    pub(crate) fn new(alloc: Global, measure: Measure) -> Spread
        ensures spread { IsSpread result.counts.items [] }
        ensures measure { result.measure ≡ measure }
    {
        Spread {
            measure,
            counts: Vec::new(alloc),
        }
    }

    /// One run more, which has this value.
    pub(crate) fn add(&mut self, value: usize) -> Result<(), AllocError>
        ensures spread { (values : List ℕ) → IsSpread self.old.counts.items values → length values < 4294967295
            → OnOk result (IsSpread self.new.counts.items (values ++ value ∷ [])) }
        ensures measure { self.new.measure ≡ self.old.measure }
    {
        make_room(&mut self.counts, value)?;
        raise(&mut self.counts, value);
        Ok(())
    }

    /// The value of the run of this rank, from 0, where the runs are put in the order of their values, the least first. None: there are no
    /// so many runs.
    pub fn value_at(&self, rank: u64) -> Option<usize>
        ensures value { result ≡ ranked self.now.counts.items rank 0 }
    {
        let mut left = rank;
        'values: for (value, count) in self.counts.iter().enumerate() {
            let count = u64::from(*count);
            if left < count {
                return Some(value);
            }
            left -= count;
        }
        None
    }
}

/// Adds values that no run has, up to this one.
fn make_room(counts: &mut Vec<u32>, value: usize) -> Result<(), AllocError>
    ensures long { OnOk result (value < vec_len counts.new) }
    ensures same { OnOk result ((value : ℕ) → slice_index counts.new.items value ≡ slice_index counts.old.items value) }
{
    let long = counts.len();
    if value < long {
        return Ok(());
    }
    grow(counts, value - long)
}

/// Adds this many values that no run has, and one.
fn grow(counts: &mut Vec<u32>, missing: usize) -> Result<(), AllocError>
    ensures long { OnOk result (vec_len counts.new ≡ vec_len counts.old + (missing + 1)) }
    ensures same { OnOk result ((value : ℕ) → slice_index counts.new.items value ≡ slice_index counts.old.items value) }
{
    'values: for _ in 0..missing {
        counts.push(0)?;
    }
    counts.push(0)?;
    Ok(())
}

/// One run more has this value.
fn raise(counts: &mut Vec<u32>, value: usize)
    requires { value < vec_len counts.old }
    ensures { counts.new.items ≡ slice_set counts.old.items value (said.counted (slice_index counts.old.items value)) }
{
    counts[value] = counted(counts[value]);
}
