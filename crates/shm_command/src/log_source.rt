//! From where an audit has its logs.
ghost use Rattle.std.specs.Prelude.{IfErr};
ghost use Rattle.shm_command.specs.Audited.{IsUnread};

use crate::audit_failure::Unaudited;
use crate::disk_save_file::Disk;
use crate::journal_row::lines_in_row;
use crate::whole_journal::open_whole;
use shm_audit::{JournalFault, read_log};
use shm_sites::SiteLog;
use std::rt::Files;

/// Journals, each by its name.
pub(crate) trait LogSource {
    ghost use Rattle.std.specs.Prelude.{ℕ, List, IfErr, IfOk};
    ghost use Rattle.std.specs.declared.alloc.Global.{Global};
    ghost use Rattle.shm_logs.specs.declared.site_boxes.site_log.SiteLog.{SiteLog};
    ghost use Rattle.shm_command.specs.Audited.{IsUnread};

    /// To which logs the journal of a name may lead.
    ghost leads: { Self → List ℕ → SiteLog Global → Type 0 };

    /// The log to which the journal of this name leads, which is the one of this number.
    fn log_of(&self, at: usize, name: &str) -> Result<SiteLog, Unaudited>
        ensures log { IfOk result (leads self.now name.now) }
        ensures unread { IfErr result IsUnread };
}

/// The log of a journal that begins with a state, and of the files before it.
fn read_row_log<R: AllocGlobal + Files>(rt: &R, at: usize, name: &str) -> Result<SiteLog, Unaudited>
    ensures { IfErr result IsUnread }
{
    let lines = match lines_in_row(rt, at, name) {
        Ok(lines) => lines,
        Err(fault) => return Err(fault),
    };
    let mut reader = lines.as_slice();
    match read_log(rt.alloc(), &mut reader) {
        Ok(log) => Ok(log),
        Err(fault) => Err(Unaudited::Unread { at, fault }),
    }
}

impl<R: AllocGlobal + Files> LogSource for Disk<'_, R> {
    ghost use Rattle.std.specs.Prelude.{⊤};

    ghost leads = { λ _ _ _. ⊤ };

    fn log_of(&self, at: usize, name: &str) -> Result<SiteLog, Unaudited> {
        let whole = match open_whole(self.rt, name) {
            Ok(whole) => whole,
            Err(unwhole) => return Err(unwhole.of_audit(at)),
        };
        let mut lines = whole.lines;
        match read_log(self.rt.alloc(), &mut lines) {
            Ok(log) => Ok(log),
            Err(JournalFault::BeginsWithState) => read_row_log(self.rt, at, name),
            Err(fault) => Err(Unaudited::Unread { at, fault }),
        }
    }
}
