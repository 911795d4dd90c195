//! The text of an audited run.
ghost use Rattle.std.specs.Prelude.{◌≡◌, ◌≢◌, ◌⊎◌, ◌++◌, ℕ, List, Some, true, IfErr, IfOk, OnOk, string_bytes};
ghost use Rattle.std.specs.Io.KnownBytes.{Appends};
ghost use Rattle.shm_report.specs.Audited.{counts_of_run, IsAccepted, IsReportOfRun};
ghost use Rattle.shm_report.specs.Callers.{AreOf};
ghost use Rattle.shm_report.specs.Causes.{ends_writing, IsOther};
ghost use Rattle.shm_report.specs.Counts.{summary_text, time_text};
ghost use Rattle.shm_report.specs.Report.{IsCutShort};
ghost use Rattle.shm_report.specs.declared.report_error.ReportFault.TheVariants as cause;

use crate::audited_run::Audited;
use crate::count_run::count_all;
use crate::report_error::ReportFault;
use crate::report_text::{answer_lines, write_report};
use crate::run_counts::Counts;
use shm_sites::SiteLog;
use std::alloc::{AllocError, Global};
use std::fmt;
use std::io::Write;

impl Audited {
    /// The logs of all sites, in their order.
    pub fn logs(&self) -> &[SiteLog]
        ensures { result.now ≡ self.now.ran.logs.items }
    {
        self.ran.logs.as_slice()
    }

    /// How much was done.
    pub fn counts(&self, alloc: Global) -> Result<Counts, AllocError>
        ensures { IfOk result (λ counts. counts ≡ counts_of_run self.now) }
    {
        count_all(alloc, self.ran.logs.as_slice(), self.events.as_slice())
    }

    /// How much was done, and how many milliseconds it took, where that is known: as text, a line for each number.
    pub fn summary(&self, alloc: Global, took: Option<u64>) -> Result<String, AllocError>
        ensures { IfOk result (λ text. string_bytes text ≡ summary_text (counts_of_run self.now) took) }
    {
        let counts = self.counts(alloc)?;
        format!(in alloc; "{counts}{}", Took(took))
    }

    /// Writes what each line was answered, that the audit found nothing, and `more` behind it. An error of the writer, of whatever kind,
    /// ends it: nothing is tried again, and a front of all this was written.
    pub fn write<O: Write>(
        &self,
        alloc: Global,
        more: &str,
        writer: &mut O,
    ) -> Result<(), ReportFault>
        ensures quiet { IfErr result (λ fault. (fault ≡ cause.WriteFault) ⊎ (writer.new ≡ writer.old)) }
        ensures other { IfErr result IsOther }
        ensures ending { IfErr result (λ fault. ends_writing fault ≡ true) }
        ensures served { IfErr result (λ fault. IsAccepted self.now → AreOf self.now.sites self.now.workload.accesses.items → fault ≢ cause.Logs) }
        ensures told { OnOk result ((lines : List ℕ) × Appends (O.contents writer.old) (O.contents writer.new) (lines ++ more.now)
            × IsReportOfRun self.now lines) }
        ensures cut { IfErr result (λ fault. fault ≡ cause.WriteFault → (lines : List ℕ)
            × IsCutShort (O.contents writer.old) (O.contents writer.new) (lines ++ more.now)
            × IsReportOfRun self.now lines) }
    {
        // Reading it tells the proof its limits.
        let _count = self.sites.count();
        match answer_lines(
            alloc,
            self.workload.accesses.as_slice(),
            self.ran.callers.as_slice(),
        ) {
            Ok(text) => write_report(&text, more, writer),
            Err(fault) => Err(fault),
        }
    }
}

/// How long it took, where that is known.
#[derive(Clone, Copy)]
struct Took(Option<u64>);

impl fmt::Display for Took {
    ghost output = { λ took. Some (time_text took.0) };

    fn fmt<W: fmt::Write>(&self, f: &mut fmt::Formatter<W>) -> fmt::Result {
        match self.0 {
            Some(milliseconds) => write!(f, "took {milliseconds} ms\n"),
            None => Ok(()),
        }
    }
}
