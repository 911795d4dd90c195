use std::fmt;

/// The steps that a site took again of its journal at its start.
#[derive(Clone, Copy, Debug, PartialEq, Eq)]
pub struct TakenAgain {
    /// How many steps.
    pub steps: u64,
    /// The clock of the last, or 0.
    pub clock: u64,
    /// In how many batches they were kept.
    pub batches: u64,
    /// How many bytes were cut off behind them. They were never durable.
    pub torn: u64,
}

impl fmt::Display for TakenAgain {
    ghost use Rattle.std.specs.Prelude.{Some};
    ghost use Rattle.shm_command.specs.TakenAgain.{again_text};

    ghost output = { λ again. Some (again_text again) };

    /// The line, without a line feed.
    fn fmt<W: fmt::Write>(&self, f: &mut fmt::Formatter<W>) -> fmt::Result {
        let TakenAgain {
            steps,
            clock,
            batches,
            torn,
        } = *self;
        write!(
            f,
            "journal: steps taken again: {steps}, clock: {clock}, batches: {batches}, cut off {torn} bytes that were never durable"
        )
    }
}
