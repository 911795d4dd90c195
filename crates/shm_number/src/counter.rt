ghost use Rattle.std.specs.Prelude.{◌≡◌, ◌+◌, if◌then◌else◌, nat_lt};

use shm_model::refusal::{NUMBERS_USED_UP, Numbered};
use std::marker::Model;

/// The number of a request or of a call. They rise from 1, and 0 is the number of none; what is repeated has the number that it had.
pub type Number = u64;

/// Every number was used: nothing comes after the greatest one.
#[derive(Clone, Copy, Debug, PartialEq, Eq)]
pub struct UsedUp;

impl Numbered for UsedUp {
    ghost use Rattle.shm_model.specs.Refusal.{numbers_used_up};

    ghost number_of = { λ _. numbers_used_up };

    fn number(&self) -> u8 {
        NUMBERS_USED_UP
    }
}

/// Gives numbers in turn, each once.
#[derive(Drop)]
pub struct Counter {
    last: Number,
}

impl Model for Counter {
    ghost use Rattle.std.specs.Prelude.{ℕ};

    ghost Value = { ℕ };

    ghost view = { λ counter. counter.last };

    ghost inverse = { λ n. record { last = n } };
}

impl Counter {
    /// A counter whose first number is 1.
    pub fn new() -> Counter
        ensures { result ≡ 0 }
    {
        Counter { last: 0 }
    }

    /// The counter whose last number was this one. It goes on with the next.
    pub fn after(last: Number) -> Counter
        ensures { result ≡ last }
    {
        Counter { last }
    }

    /// The number that was given last; 0 before the first.
    pub fn last(&self) -> Number
        ensures { result ≡ self.now }
    {
        self.last
    }

    /// The number after the last one.
    pub fn next(&mut self) -> Result<Number, UsedUp>
        ensures number { result ≡ (if nat_lt self.old u64.MAX then Ok (self.old + 1) else Err (record {})) }
        ensures last { self.new ≡ (if nat_lt self.old u64.MAX then self.old + 1 else self.old) }
    {
        if self.last < Number::MAX {
            self.last += 1;
            return Ok(self.last);
        }
        Err(UsedUp)
    }

    /// A counter that goes on from the same number, alone.
    pub fn copy(&self) -> Counter
        ensures { result ≡ self.now }
    {
        Counter { last: self.last }
    }
}
