/// Where an envelope was sent. For an input that hands no envelope over it is `NONE`.
#[derive(Clone, Copy, Debug, PartialEq, Eq)]
pub struct Stamp {
    /// The stamp of the step that sent it.
    pub at: u64,
    /// That step's index in its site's log.
    pub index: usize,
    /// The envelope's place among those that the step sent.
    pub place: usize,
}

impl Stamp {
    /// No envelope was handed over.
    pub const NONE: Stamp = Stamp {
        at: 0,
        index: 0,
        place: 0,
    };
}
