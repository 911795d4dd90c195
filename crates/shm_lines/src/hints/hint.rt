use crate::hints::expected_word::Expected;

/// Where a line can't be read on.
#[derive(Clone, Copy, Debug, PartialEq, Eq)]
pub struct Hint {
    /// The first byte that can't be read on. It is the line's length where the line ends too soon.
    pub at: usize,
    /// What could stand there.
    pub expected: Expected,
}
