ghost use Rattle.std.specs.Prelude.{◌≡◌, [], length, None};
ghost use Rattle.std.specs.Option.{option_copied};
ghost use Rattle.shm_prompt.specs.Dialog.{standing_now};

use crate::output_line::last_line_of;
use crate::script_notes::Notes;
use shm_debug::Session;
use std::alloc::{Allocator, Global};
use std::marker::Model;

/// The state between two lines: a session, from the first `sites` line on, and notes for lines of its script.
#[derive(Drop)]
pub struct Dialog<A: Allocator + Copy = Global> {
    pub(crate) session: Option<Session<A>>,
    pub(crate) notes: Notes<A>,
    pub(crate) alloc: A,
}

impl<A: Allocator + Copy> Model for Dialog<A> {
    ghost use Rattle.shm_prompt.specs.State.{State};

    ghost Value = { State };

    ghost view = { λ dialog. record { standing = dialog.session; notes = dialog.notes } };
}

impl<A: Allocator + Copy> Dialog<A> {
    /// There are no sites yet.
    pub fn new(alloc: A) -> Dialog<A>
        ensures { result ≡ record { standing = None; notes = [] } }
    {
        Dialog {
            session: None,
            notes: Notes::new(alloc),
            alloc,
        }
    }

    /// The session; `None`: no sites yet.
    pub fn session(&self) -> Option<&Session<A>>
        ensures { option_copied result ≡ self.now.standing }
    {
        self.session.as_ref()
    }

    /// How many lines have a note.
    pub(crate) fn note_count(&self) -> usize
        ensures { result ≡ length self.now.notes }
    {
        self.notes.len()
    }

    /// Drops the notes of lines that stand no more.
    pub(crate) fn drop_gone_notes(&mut self)
        ensures { self.new ≡ standing_now self.old self.old.standing }
    {
        let last = last_line_of(&self.session);
        self.notes.keep_up_to(last);
    }
}
