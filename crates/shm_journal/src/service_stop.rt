/// Why a process that serves stops, where nothing has failed.
#[derive(Clone, Copy, Debug, PartialEq, Eq)]
pub enum Stop {
    /// Its input has ended.
    Ended,
    /// Its journal is due to be made shorter, and its site is at rest.
    Due,
}
