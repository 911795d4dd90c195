use shm_seal::ClusterName;
use std::fmt;

/// A journal's summary.
#[derive(Clone, Copy, Debug, PartialEq, Eq)]
pub struct Summary {
    /// The site whose steps are recorded.
    pub site: u32,
    /// How many sites there are.
    pub sites: u32,
    /// How many pages segment 0 began with.
    pub pages: u32,
    /// The cluster's name, if it has one.
    pub cluster: Option<ClusterName>,
    /// How many steps are recorded, with those that led to the state that it begins with.
    pub steps: u64,
    /// The clock of the last step, or 0.
    pub clock: u64,
    /// How many bytes the file has.
    pub bytes: u64,
    /// How many of them stand behind the last line feed: an end that was never completed.
    pub torn: u64,
}

impl fmt::Display for Summary {
    ghost use Rattle.std.specs.Prelude.{Some};
    ghost use Rattle.shm_journal.specs.Summed.{summary_text};

    ghost output = { λ summary. Some (summary_text summary) };

    /// A line for each. Without a cluster's name there is no line for that.
    fn fmt<W: fmt::Write>(&self, f: &mut fmt::Formatter<W>) -> fmt::Result {
        let Summary {
            site,
            sites,
            pages,
            cluster,
            steps,
            clock,
            bytes,
            torn,
        } = *self;
        write!(f, "site {site}\nsites {sites}\npages {pages}\n")?;
        if let Some(name) = cluster {
            writeln!(f, "cluster {name}")?;
        }
        write!(
            f,
            "steps {steps}\nclock {clock}\nbytes {bytes}\ntorn {torn}\n"
        )
    }
}
