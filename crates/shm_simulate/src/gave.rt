/// What a line of a workload gave in a run.
#[derive(Clone, Copy, Debug, PartialEq, Eq)]
pub enum Gave {
    /// The run was given up before the line's access was done.
    Nothing,
    /// The byte that was loaded.
    Byte(u8),
    Stored,
}

impl Gave {
    ghost use Rattle.std.specs.Prelude.{◌≡◌};
    ghost use Rattle.shm_simulate.specs.Lines as said;

    /// Checks that the access wasn't done.
    pub fn is_nothing(self) -> bool
        ensures { result ≡ said.is_nothing self }
    {
        match self {
            Gave::Nothing => true,
            _ => false,
        }
    }
}
