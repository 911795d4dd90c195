//! The form of an output line: its number, a blank, the text, and a line feed.
ghost use Rattle.std.specs.Prelude.{◌≡◌, ◌+◌, ◌++◌, OnOk, length};
ghost use Rattle.shm_text.specs.Text.{line_text};
ghost use Rattle.shm_prompt.specs.Dialog as dialog;

use shm_debug::Session;
use std::alloc::{AllocError, Allocator};

/// Tells a line under its number.
pub(crate) fn tell_line<A: Allocator + Copy>(
    out: &mut Vec<u8, A>,
    number: u64,
    said: &[u8],
) -> Result<(), AllocError>
    ensures { OnOk result (out.new.items ≡ out.old.items ++ line_text number said.now) }
{
    let head = format!(in *out.allocator(); "{number} ")?;
    out.extend_from_slice(head.as_bytes())?;
    out.extend_from_slice(said)?;
    out.extend_from_slice(b"\n")
}

/// The number of the last line of the script of what stands: its `sites` line, and a line for each event.
pub(crate) fn last_line<A: Allocator + Copy>(session: &Session<A>) -> u64
    ensures { result ≡ length session.now.events + 1 }
{
    session.events().len() as u64 + 1
}

/// The same, or 0 where no sites stand.
pub(crate) fn last_line_of<A: Allocator + Copy>(session: &Option<Session<A>>) -> u64
    ensures { result ≡ dialog.last_line session.now }
{
    match session {
        None => 0,
        Some(session) => last_line(session),
    }
}
