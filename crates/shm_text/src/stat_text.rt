ghost use Rattle.std.specs.Prelude.{Some};
ghost use Rattle.shm_text.specs.Text.{people_text, stat_text, use_text};

use shm_model::Stat;
use std::fmt;

/// The text of a segment's record.
#[derive(Clone, Copy)]
pub(crate) struct StatText(pub(crate) Stat);

impl fmt::Display for StatText {
    ghost output = { λ text. Some (stat_text text.0) };

    fn fmt<W: fmt::Write>(&self, f: &mut fmt::Formatter<W>) -> fmt::Result {
        let key = self.0.key.0;
        let people = PeopleText(self.0);
        let mode = self.0.mode;
        let used = UseText(self.0);
        write!(f, "stat key {key} {people} mode {mode} {used}")
    }
}

/// A segment's owner and creator, each with its group.
#[derive(Clone, Copy)]
struct PeopleText(Stat);

impl fmt::Display for PeopleText {
    ghost output = { λ text. Some (people_text text.0) };

    fn fmt<W: fmt::Write>(&self, f: &mut fmt::Formatter<W>) -> fmt::Result {
        let uid = self.0.uid;
        let gid = self.0.gid;
        let cuid = self.0.cuid;
        let cgid = self.0.cgid;
        write!(f, "uid {uid} gid {gid} cuid {cuid} cgid {cgid}")
    }
}

/// How large a segment is, how often it is attached, and whether it is marked to be destroyed.
#[derive(Clone, Copy)]
struct UseText(Stat);

impl fmt::Display for UseText {
    ghost output = { λ text. Some (use_text text.0) };

    fn fmt<W: fmt::Write>(&self, f: &mut fmt::Formatter<W>) -> fmt::Result {
        let size = self.0.size;
        let nattch = self.0.nattch;
        let state = if self.0.marked { "marked" } else { "live" };
        write!(f, "size {size} nattch {nattch} {state}")
    }
}
