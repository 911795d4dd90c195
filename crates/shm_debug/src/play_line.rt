//! What each line does to a session, and its answer.
ghost use Rattle.std.specs.Prelude.{◌≡◌, ◌++◌, Some, false, is_some, not, true, IfOk, OnErr, OnOk};
ghost use Rattle.shm_lines.specs.Line.{is_first};
ghost use Rattle.shm_lines.specs.Spelling.{IsLine};
ghost use Rattle.shm_text.specs.Text.{line_text};
ghost use Rattle.shm_debug.specs.Replay.{summary_at};
ghost use Rattle.shm_debug.specs.Said.{said, said_to_back, next, next_back};

use crate::non_event_answer::Notice;
use crate::printed_text::tell_page_line;
use crate::script_summary_and_error::Summary;
use crate::{BackFault, Session};
use shm_lines::Line;
use shm_text::Text;
use std::alloc::{AllocError, Allocator};

/// A line that may stand here: the first one opens the session, the others act on it.
#[inline(always)]
pub fn pass_line<A: Allocator + Copy>(
    session: &mut Option<Session<A>>,
    alloc: A,
    number: u64,
    line: Line,
    output: &mut Text<A>,
) -> Result<(), AllocError>
    requires first { is_first line ≡ not (is_some session.old) }
    requires is_line { IsLine line }
    ensures told { OnOk result (output.new ≡ output.old ++ line_text number (said session.old line)) }
    ensures next { OnOk result (session.new ≡ next session.old line) }
    ensures err { OnErr result (output.new ≡ output.old) }
    ensures still { OnErr result (is_some session.new ≡ is_some session.old) }
{
    match session {
        None => {
            let opened = open_session(alloc, line)?;
            output.tell(number, Notice::Ready)?;
            *session = Some(opened);
            Ok(())
        }
        Some(session) => act_on(session, number, line, output),
    }
}

/// The session that a first line opens.
fn open_session<A: Allocator + Copy>(alloc: A, line: Line) -> Result<Session<A>, AllocError>
    requires first { is_first line ≡ true }
    requires is_line { IsLine line }
    ensures { IfOk result (λ session. next None line ≡ Some session) }
{
    match line {
        Line::Sites(opening) => Session::new(alloc, opening),
        _ => unreachable!(),
    }
}

/// A line that isn't the first.
fn act_on<A: Allocator + Copy>(
    session: &mut Session<A>,
    number: u64,
    line: Line,
    output: &mut Text<A>,
) -> Result<(), AllocError>
    requires { is_first line ≡ false }
    ensures told { OnOk result (output.new ≡ output.old ++ line_text number (said (Some session.old) line)) }
    ensures next { OnOk result (Some session.new ≡ next (Some session.old) line) }
    ensures err { OnErr result (output.new ≡ output.old) }
{
    match line {
        Line::Event(event) => session.apply_and_tell(&event, number, output),
        Line::Show(page) => tell_page_line(output, number, session.world(), page),
        Line::Back(count) => go_back(session, number, count, output),
        Line::Sites(_) => unreachable!(),
    }
}

/// Takes the last events back, if that many stand.
fn go_back<A: Allocator + Copy>(
    session: &mut Session<A>,
    number: u64,
    count: u32,
    output: &mut Text<A>,
) -> Result<(), AllocError>
    ensures told { OnOk result (output.new ≡ output.old ++ line_text number (said_to_back session.old count)) }
    ensures next { OnOk result (session.new ≡ next_back session.old count) }
    ensures err { OnErr result (output.new ≡ output.old) }
{
    match session.back(count) {
        Ok(left) => output.tell(number, Notice::Back(left)),
        Err(BackFault::PastBeginning) => output.tell(number, Notice::PastBeginning),
        Err(BackFault::OutOfMemory) => Err(AllocError),
    }
}

/// The summary of a script of this many lines that left this session.
pub fn summary<A: Allocator + Copy>(lines: u64, session: &Option<Session<A>>) -> Summary
    ensures { result ≡ summary_at lines session.now }
{
    match session {
        None => Summary {
            lines,
            events: 0,
            sent: 0,
        },
        Some(session) => Summary {
            lines,
            events: session.len(),
            sent: session.world().sent(),
        },
    }
}
