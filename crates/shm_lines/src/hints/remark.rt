use std::fmt;

/// A guess at what a wrong line was meant to be.
#[derive(Clone, Copy, Debug, PartialEq, Eq)]
pub enum Remark {
    /// It has no byte.
    Blank,
    /// It begins with `#` or `/`, as comments do elsewhere.
    Comment,
    /// It ends with a carriage return.
    CarriageReturn,
    /// It is a first line that isn't first, or another line that is.
    FirstLine,
    /// It is right, so no line feed ended it.
    Unended,
    /// It is an access, so no line feed ended it, or it is beyond the last site or page.
    Outside,
    /// It is a workload's line in a script.
    OfWorkload,
    /// It is a script's line in a workload.
    OfScript,
}

impl Remark {
    fn text(&self) -> &'static str {
        match self {
            Remark::Blank => "there are no blank lines",
            Remark::Comment => "there are no comments",
            Remark::CarriageReturn => "a line feed alone ends a line, without a carriage return",
            Remark::FirstLine =>
                "`sites` begins a script and `preset` a workload, and nothing else does",
            Remark::Unended => "a line feed ends the last line, too",
            Remark::Outside => "the offset is beyond the segment, or no line feed ends the line",
            Remark::OfWorkload => "this is a workload's line, for `shmdbg run`",
            Remark::OfScript => "this is a script's line, for `shmdbg replay`",
        }
    }
}

impl fmt::Display for Remark {
    fn fmt<W: fmt::Write>(&self, f: &mut fmt::Formatter<W>) -> fmt::Result {
        f.write_str(self.text())
    }
}
