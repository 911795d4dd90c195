//! Notes: captions for lines of the script of what stands.
ghost use Rattle.std.specs.Prelude.{◌≡◌, ◌++◌, ◌<◌, [], length, true, IfOk, OnErr, OnOk};
ghost use Rattle.shm_draw.specs.Captions.{Beside};
ghost use Rattle.shm_prompt.specs.Notes.{AreDrawn, is_note, note_bytes, notes_text, notes_up_to, with_note};

use std::alloc::{AllocError, Allocator};
use std::marker::Model;

/// A caption for a line of the script.
#[derive(Drop)]
struct Note<A: Allocator + Copy> {
    line: u64,
    text: Vec<u8, A>,
}

impl<A: Allocator + Copy> Model for Note<A> {
    ghost use Rattle.shm_draw.specs.Captions.{Beside};

    ghost Value = { Beside };

    ghost view = { λ note. record { line = note.line; text = note.text.items } };
}

/// The notes that are kept, the lowest line's first.
#[derive(Drop)]
pub(crate) struct Notes<A: Allocator + Copy> {
    notes: Vec<Note<A>, A>,
}

impl<A: Allocator + Copy> Model for Notes<A> {
    ghost use Rattle.std.specs.Prelude.{All, List};
    ghost use Rattle.shm_draw.specs.Captions.{Beside};
    ghost use Rattle.shm_prompt.specs.Notes.{IsNote};

    ghost Value = { List Beside };

    ghost view = { λ notes. notes.notes.items };

    ghost invariant = { λ notes. All IsNote notes.notes.items };
}

impl<A: Allocator + Copy> Notes<A> {
    /// No notes.
    pub(crate) fn new(alloc: A) -> Notes<A>
        ensures { result ≡ [] }
    {
        Notes {
            notes: Vec::new(alloc),
        }
    }

    /// How many lines have a note.
    pub(crate) fn len(&self) -> usize
        ensures { result ≡ length self.now }
    {
        self.notes.len()
    }

    /// Keeps a text for the last line, in place of one that it has.
    pub(crate) fn keep(&mut self, alloc: A, line: u64, text: &[u8]) -> Result<(), AllocError>
        requires line { 0 < line }
        requires text { is_note text.now ≡ true }
        ensures ok { OnOk result (self.new ≡ with_note self.old line text.now) }
        ensures err { OnErr result (self.new ≡ self.old) }
    {
        let text = text.to_vec(alloc)?;
        self.notes.reserve(1)?;
        self.notes.retain(|note| note.line < line);
        self.notes.push(Note { line, text })?;
        Ok(())
    }

    /// Drops the notes of later lines.
    pub(crate) fn keep_up_to(&mut self, last: u64)
        ensures { self.new ≡ notes_up_to last self.old }
    {
        self.notes.retain(|note| note.line <= last);
    }

    /// Drops all.
    pub(crate) fn clear(&mut self)
        ensures { self.new ≡ [] }
    {
        self.notes.clear();
    }

    /// The text that `shmdbg draw --notes` reads as these notes.
    pub(crate) fn text(&self, alloc: A) -> Result<Vec<u8, A>, AllocError>
        ensures text { IfOk result (λ text. text.items ≡ notes_text self.now) }
        ensures drawn { IfOk result (λ text. AreDrawn text.items self.now) }
    {
        text_of(alloc, self.notes.as_slice())
    }
}

/// A line for each note.
fn text_of<A: Allocator + Copy>(alloc: A, notes: &[Note<A>]) -> Result<Vec<u8, A>, AllocError>
    ensures { IfOk result (λ text. text.items ≡ notes_text notes.now) }
{
    let mut text = Vec::new(alloc);
    'notes: for note in notes {
        push_note(&mut text, note)?;
    }
    Ok(text)
}

fn push_note<A: Allocator + Copy>(text: &mut Vec<u8, A>, note: &Note<A>) -> Result<(), AllocError>
    ensures { OnOk result (text.new.items ≡ text.old.items ++ note_bytes note.now) }
{
    let line = note.line;
    let head = format!(in *text.allocator(); "{line} ")?;
    text.extend_from_slice(head.as_bytes())?;
    text.extend_from_slice(note.text.as_slice())?;
    text.extend_from_slice(b"\n")
}
