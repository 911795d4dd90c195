ghost use Rattle.std.specs.Prelude.{◌≡◌};
ghost use Rattle.shm_parts.specs.Frames.{installs};

/// What a message changed at a page's entry, for all that depends on it.
#[derive(Clone, Copy, Debug, PartialEq, Eq)]
pub struct Change {
    /// A greater transaction number was met than before.
    pub newer: bool,
    /// The entry is a copy now.
    pub copy: bool,
    /// The page may be read now.
    pub readable: bool,
    /// The page may be written now.
    pub writable: bool,
}

impl Change {
    /// Checks that a copy came.
    pub(crate) fn installs(self) -> bool
        ensures { result ≡ installs self }
    {
        self.copy && self.newer
    }
}
