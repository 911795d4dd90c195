use shm_journal::Summary;
use std::fmt;

/// The summary of a journal in a file.
#[derive(Clone, Copy, Debug, PartialEq, Eq)]
pub struct FileSummary {
    /// That of the lines of its whole batches.
    pub lines: Summary,
    /// How many whole batches there are.
    pub batches: u64,
    /// How many bytes the file has.
    pub bytes: u64,
    /// How many of them stand behind the whole batches.
    pub behind: u64,
}

impl fmt::Display for FileSummary {
    ghost use Rattle.std.specs.Prelude.{Some};
    ghost use Rattle.shm_command.specs.FileSummary.{file_summary_text};

    ghost output = { λ summary. Some (file_summary_text summary) };

    /// A line for each.
    fn fmt<W: fmt::Write>(&self, f: &mut fmt::Formatter<W>) -> fmt::Result {
        let Summary {
            site,
            sites,
            pages,
            cluster,
            steps,
            clock,
            ..
        } = self.lines;
        let summary = Summary {
            site,
            sites,
            pages,
            cluster,
            steps,
            clock,
            bytes: self.bytes,
            torn: self.behind,
        };
        let batches = self.batches;
        write!(f, "{summary}batches {batches}\n")
    }
}
