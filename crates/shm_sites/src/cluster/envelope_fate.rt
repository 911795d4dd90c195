ghost use Rattle.std.specs.Prelude.{◌≡◌};
ghost use Rattle.shm_sites.specs.Cluster.Fate.{fate_of};

/// The fate of an envelope between two sites' threads.
#[derive(Clone, Copy, Debug, PartialEq, Eq)]
pub(crate) enum Fate {
    Lost,
    Once,
    Twice,
}

impl Fate {
    /// By the number that was drawn for it.
    pub(crate) fn of(drawn: u32) -> Fate
        ensures { result ≡ fate_of drawn }
    {
        match drawn % 16 {
            0 => Fate::Lost,
            1 => Fate::Twice,
            _ => Fate::Once,
        }
    }
}
