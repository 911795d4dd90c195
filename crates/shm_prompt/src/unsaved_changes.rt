//! What may have changed since it was saved.
ghost use Rattle.std.specs.Prelude.{◌≡◌};
ghost use Rattle.shm_prompt.specs.Command.{command_of};
ghost use Rattle.shm_prompt.specs.Typing as typing;
ghost use Rattle.shm_prompt.specs.Typing.{is_told_noted, is_told_saved, notes_unsaved, script_unsaved, unsaved_after};

use crate::prompt_command::{Command, parse_command};
use shm_lines::Line;

/// Whether what stands, and its notes, may have changed since they were saved.
#[derive(Clone, Copy, Drop)]
pub(crate) struct Unsaved {
    pub(crate) script: bool,
    pub(crate) notes: bool,
}

impl Unsaved {
    /// Nothing has changed.
    pub(crate) const NOTHING: Unsaved = Unsaved {
        script: false,
        notes: false,
    };

    /// What is unsaved after a line, which was told this and may have dropped notes.
    pub(crate) fn after(self, line: &[u8], told: &[u8], drops_notes: bool) -> Unsaved
        ensures { result ≡ unsaved_after self (command_of line.now) told.now drops_notes }
    {
        let command = parse_command(line);
        Unsaved {
            script: is_unsaved(self.script, command, told),
            notes: has_unsaved_notes(self.notes || drops_notes, command, told),
        }
    }
}

/// Whether what stands may have changed since it was saved: so it was before this command, and this was told to it.
fn is_unsaved(was: bool, command: Option<Command>, told: &[u8]) -> bool
    ensures { result ≡ script_unsaved was command told.now }
{
    match command {
        Some(Command::Line(line)) => was || may_change(line),
        Some(Command::Run(_)) => true,
        Some(Command::Undo) => true,
        Some(Command::Save) => was && !is_saved(told),
        _ => was,
    }
}

/// Checks that a line of a script may change what stands.
fn may_change(line: Line) -> bool
    ensures { result ≡ typing.may_change line }
{
    match line {
        Line::Show(_) => false,
        _ => true,
    }
}

/// The same of the notes.
fn has_unsaved_notes(was: bool, command: Option<Command>, told: &[u8]) -> bool
    ensures { result ≡ notes_unsaved was command told.now }
{
    match command {
        Some(Command::Note) => was || is_noted(told),
        Some(Command::Notes) => was && !is_saved(told),
        _ => was,
    }
}

/// Checks that it was told that a file was saved.
fn is_saved(told: &[u8]) -> bool
    ensures { result ≡ is_told_saved told.now }
{
    told.starts_with(b"saved to ")
}

/// Checks that it was told that a note was kept.
fn is_noted(told: &[u8]) -> bool
    ensures { result ≡ is_told_noted told.now }
{
    told.ends_with(b" noted\n")
}
