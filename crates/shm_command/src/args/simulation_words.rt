use shm_place::Sites;
use shm_simulate::Odds;

/// A simulation, as the words ask for it.
#[derive(Clone, Copy, Debug, PartialEq, Eq)]
pub struct Simulation<'a> {
    /// How many sites.
    pub sites: Sites,
    /// The seed of the first run.
    pub seed: u32,
    /// How many runs, 1 at least.
    pub runs: u32,
    /// How often things go wrong.
    pub odds: Odds,
    /// The folder for the outcomes' scripts, if one is named.
    pub keep: Option<&'a str>,
}
