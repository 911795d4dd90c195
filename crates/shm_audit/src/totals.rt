use std::fmt;

/// How much the sites did.
#[derive(Clone, Copy, Debug, PartialEq, Eq)]
pub struct Totals {
    /// The steps of all sites.
    pub steps: u64,
    /// The loads and stores that were completed: answered a byte, or that it was stored.
    pub accesses: u64,
    /// The envelopes that were sent.
    pub envelopes: u64,
}

impl fmt::Display for Totals {
    ghost use Rattle.std.specs.Prelude.{Some};
    ghost use Rattle.shm_audit.specs.Totals.{totals_text};

    ghost output = { λ counts. Some (totals_text counts) };

    /// A line for each count.
    fn fmt<W: fmt::Write>(&self, f: &mut fmt::Formatter<W>) -> fmt::Result {
        let Totals {
            steps,
            accesses,
            envelopes,
        } = *self;
        write!(
            f,
            "steps {steps}\naccesses {accesses}\nenvelopes {envelopes}\n"
        )
    }
}
