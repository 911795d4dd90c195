//! `note` and `notes`: a note for the line of the script that stands last, and the file of all.
ghost use Rattle.std.specs.Prelude.{◌≡◌, ◌++◌, ◌<◌, OnErr, OnOk};
ghost use Rattle.shm_prompt.specs.Dialog.{TellsMore, TellsOfStanding, next_notes, told_note};
ghost use Rattle.shm_prompt.specs.Notes.{noted, notes_text, text_typed, told_noted, unnoted_text};
ghost use Rattle.shm_prompt.specs.Saves.{HaltsNotes, MayTry, SavesNotes, SavesUnder, file_named};

use crate::dialog_state::Dialog;
use crate::file_name::file_name;
use crate::note_text::{may_be_note, text_behind_blank};
use crate::output_line::{last_line, tell_line};
use crate::save_file_trait::SaveFile;
use crate::script_line_act::NOT_BEGUN;
use crate::script_notes::Notes;
use crate::write_named_file::{tell_unnamed, write_named};
use std::alloc::{AllocError, Allocator};

impl<A: Allocator + Copy> Dialog<A> {
    /// Keeps what stands behind the first blank as the note of the line that stands last, if it may be one.
    pub(crate) fn note(&mut self, typed: &[u8], out: &mut Vec<u8, A>) -> Result<(), AllocError>
        ensures told { OnOk result (out.new.items ≡ out.old.items ++ told_note self.old.standing typed.now) }
        ensures next { OnOk result (self.new ≡ record self.old { notes = next_notes self.old.standing self.old.notes typed.now }) }
        ensures halted { OnErr result (self.new ≡ self.old) }
    {
        let alloc = self.alloc;
        match &self.session {
            None => out.extend_from_slice(NOT_BEGUN.as_bytes()),
            Some(session) => {
                let line = last_line(session);
                note_line(&mut self.notes, alloc, line, typed, out)
            }
        }
    }

    /// Saves the notes to the file that the line names, and says so or why not.
    pub(crate) fn save_notes<S: SaveFile>(
        &self,
        typed: &[u8],
        files: &mut S,
        out: &mut Vec<u8, A>,
    ) -> Result<(), AllocError>
        ensures tells { OnOk result (TellsOfStanding self.now.standing out.old.items out.new.items) }
        ensures saves { OnOk result (SavesNotes self.now.standing self.now.notes typed.now (S.saves files.old) (S.saves files.new) out.old.items out.new.items) }
        ensures halted { OnErr result (HaltsNotes self.now.standing self.now.notes typed.now (S.saves files.old) (S.saves files.new)) }
    {
        match &self.session {
            None => out.extend_from_slice(NOT_BEGUN.as_bytes()),
            Some(_) => save_all(&self.notes, self.alloc, typed, files, out),
        }
    }
}

/// Keeps what was typed as the note of the last line, whose number this is.
fn note_line<A: Allocator + Copy>(
    notes: &mut Notes<A>,
    alloc: A,
    line: u64,
    typed: &[u8],
    out: &mut Vec<u8, A>,
) -> Result<(), AllocError>
    requires { 0 < line }
    ensures told { OnOk result (out.new.items ≡ out.old.items ++ told_noted line (text_typed typed.now)) }
    ensures next { OnOk result (notes.new ≡ noted notes.old line (text_typed typed.now)) }
    ensures halted { OnErr result (notes.new ≡ notes.old) }
{
    let Some(text) = text_behind_blank(typed) else {
        return tell_unnoted(out);
    };
    if !may_be_note(text) {
        return tell_unnoted(out);
    }
    tell_line(out, line, b"noted")?;
    notes.keep(alloc, line, text)
}

fn tell_unnoted<A: Allocator + Copy>(out: &mut Vec<u8, A>) -> Result<(), AllocError>
    ensures { OnOk result (out.new.items ≡ out.old.items ++ unnoted_text) }
{
    out.extend_from_slice(
        b"not noted: a note has at most 200 bytes, in UTF-8 without control characters\n",
    )
}

/// Saves all notes to the file that the line names.
fn save_all<A: Allocator + Copy, S: SaveFile>(
    notes: &Notes<A>,
    alloc: A,
    typed: &[u8],
    files: &mut S,
    out: &mut Vec<u8, A>,
) -> Result<(), AllocError>
    ensures tells { OnOk result (TellsMore out.old.items out.new.items) }
    ensures saves { OnOk result (SavesUnder (file_named typed.now) notes.now (S.saves files.old) (S.saves files.new) out.old.items out.new.items) }
    ensures halted { OnErr result (MayTry (file_named typed.now) (notes_text notes.now) (S.saves files.old) (S.saves files.new)) }
{
    let Some(name) = file_name(typed) else {
        return tell_unnamed(out);
    };
    let text = notes.text(alloc)?;
    write_named(text.as_slice(), name, files, out)
}
