ghost use Rattle.std.specs.Prelude.{◌≡◌, ℕ, ◌≤◌, ◌↔◌, IsOk, IfOk};

use std::marker::Model;

/// How many sites there are at most.
pub const MAX_SITES: u32 = 16;

/// The number of sites was not 1 to 16, or no site has the number.
#[derive(Clone, Copy, Debug, PartialEq, Eq)]
pub struct NoSuchSite;

/// How many sites there are: 1 to 16, numbered from 0.
#[derive(Clone, Copy, Debug, PartialEq, Eq)]
pub struct Sites {
    count: u32,
}

impl Model for Sites {
    ghost Value = { ℕ };

    ghost view = { λ s. s.count };

    ghost invariant = { λ s. (1 ≤ s.count) × (s.count ≤ 16) };

    ghost inverse = { λ n. record { count = n } };
}

impl Sites {
    /// This many sites. `NoSuchSite`: fewer than 1, or more than [`MAX_SITES`].
    pub fn new(count: u32) -> Result<Sites, NoSuchSite>
        ensures valid { IsOk result ↔ (1 ≤ count) × (count ≤ 16) }
        ensures value { IfOk result (λ sites. sites ≡ count) }
    {
        if count < 1 || count > MAX_SITES {
            return Err(NoSuchSite);
        }
        Ok(Sites { count })
    }

    /// How many there are: 1 to [`MAX_SITES`].
    pub fn count(self) -> u32
        ensures value { result ≡ self }
        ensures from { 1 ≤ result }
        ensures to { result ≤ 16 }
    {
        self.count
    }
}
