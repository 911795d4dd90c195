//! A journal's lines are made steps again.
ghost use Rattle.std.specs.Prelude.{◌≡◌, ◌+◌, ℕ, IfErr, OnOk};
ghost use Rattle.shm_journal.specs.Found.{found_behind, lines_of};
ghost use Rattle.shm_journal.specs.LinesOf.{left_of, line_in};
ghost use Rattle.shm_journal.specs.ReadUpTo.{ReadsToLine, ReadsWhole};

use crate::journal_error::JournalFault;
use crate::line_read_outcome::Taken;
use crate::line_reader::Lines;
use std::alloc::{AllocError, Allocator};
use std::io::Read;

/// A site that makes the steps again that a journal records.
pub trait Replay<A: Allocator + Copy> {
    ghost use Rattle.std.specs.Prelude.{Bool, ℕ, List, Option, Some, None, IfOk};
    ghost use Rattle.shm_journal.specs.Replaying.{IsNext};

    /// The state that a contract sees of it.
    ghost State: { Type 0 };

    /// It stands at this state.
    ghost stands: { Self → State → Type 0 };

    /// The state after the steps that a line records, if they can be its next ones.
    ghost next: { State → List ℕ → Option State };

    /// Makes the steps that this line records. `false`: they can't be the next ones.
    fn replay_line(&mut self, alloc: A, line: &[u8]) -> Result<bool, AllocError>
        ensures { (state : State) → stands self.old state → IfOk result (λ made. IsNext made (next state line.now) (stands self.new)) };
}

/// The site makes each step again that the lines behind the first record, one after another. What is torn is the line that was taken last.
pub fn replay_rest<A: Allocator + Copy, T: Replay<A>, R: Read>(
    alloc: A,
    lines: &mut Lines<A>,
    site: &mut T,
    reader: &mut R,
) -> Result<(), JournalFault>
    ensures whole { (state : T.State) → T.stands site.old state → OnOk result ((more : ℕ) × (last : T.State) × (lines.new.whole ≡ lines.old.whole + more)
        × T.stands site.new last
        × ((read : ReadsWhole (λ rest. found_behind T.next 2 state rest) (left_of lines.old (R.remaining reader.old)) (R.remaining reader.new) last more)
        × (line_in lines.new ≡ (lines_of read.bytes).torn))) }
    ensures left { (state : T.State) → T.stands site.old state → IfErr result (ReadsToLine (λ rest. found_behind T.next 2 state rest)
        (left_of lines.old (R.remaining reader.old)) (R.remaining reader.new)) }
{
    'lines: for number in 2..u64::MAX {
        match lines.take(reader) {
            Ok(Taken::Whole) => {}
            Ok(Taken::Torn) => return Ok(()),
            Ok(Taken::TooLong) => return Err(JournalFault::BadLine(number)),
            Err(fault) => return Err(fault),
        }
        match site.replay_line(alloc, lines.line()) {
            Ok(true) => {}
            Ok(false) => return Err(JournalFault::BadLine(number)),
            Err(_) => return Err(JournalFault::OutOfMemory),
        }
    }
    // No file has so many lines.
    Err(JournalFault::ReadFault)
}
