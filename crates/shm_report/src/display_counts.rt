//! The text of counts: a line for each.
ghost use Rattle.std.specs.Prelude.{Some};
ghost use Rattle.shm_report.specs.Counts.{counts_text};

use crate::run_counts::Counts;
use std::fmt;

impl fmt::Display for Counts {
    ghost output = { λ counts. Some (counts_text counts) };

    fn fmt<W: fmt::Write>(&self, f: &mut fmt::Formatter<W>) -> fmt::Result {
        let Counts {
            steps,
            faults,
            envelopes,
            losses,
            repeats,
        } = *self;
        write!(
            f,
            "steps {steps}\nfaults {faults}\nenvelopes {envelopes}\nlosses {losses}\nrepeats {repeats}\n"
        )
    }
}
