//! Takes typed bytes line by line.
ghost use Rattle.std.specs.Prelude.{◌≡◌, ◌==◌, ◌&&◌, ℕ, List, [], ◌∷◌, ◌++◌, false, true, not, drop, length, nat_lt, None, IfOk, OnErr, OnOk};
ghost use Rattle.shm_prompt.specs.Command.{command_of};
ghost use Rattle.shm_prompt.specs.Dialog.{too_long};
ghost use Rattle.shm_prompt.specs.Sitting.{all_saved, unsaved_here};
ghost use Rattle.shm_prompt.specs.Typing.{Answers, GoesOn, Halts, HaltsLine, IsKept, Obeys, Quits, Starves, is_too_long, moment, unblanked, unsaved_after};

use crate::dialog_state::Dialog;
use crate::save_file_trait::SaveFile;
use crate::unsaved_changes::Unsaved;
use std::alloc::{AllocError, Allocator};

/// The most bytes that a line has, without its line feed.
const MAX_LINE_BYTES: usize = 200;

/// The input so far: the state after the lines that ended, the front of the line that is being typed, and what isn't saved.
#[derive(Drop)]
pub(crate) struct Typed<A: Allocator + Copy> {
    pub(crate) dialog: Dialog<A>,
    pub(crate) line: Vec<u8, A>,
    pub(crate) is_long: bool,
    pub(crate) unsaved: Unsaved,
}

impl<A: Allocator + Copy> Typed<A> {
    /// No input yet, and room for a line.
    pub(crate) fn new(alloc: A) -> Result<Typed<A>, AllocError>
        ensures dialog { IfOk result (λ typed. typed.dialog ≡ record { standing = None; notes = [] }) }
        ensures line { IfOk result (λ typed. typed.line.items ≡ []) }
        ensures is_long { IfOk result (λ typed. typed.is_long ≡ false) }
        ensures unsaved { IfOk result (λ typed. typed.unsaved ≡ all_saved) }
    {
        let line = Vec::with_capacity(alloc, MAX_LINE_BYTES)?;
        Ok(Typed {
            dialog: Dialog::new(alloc),
            line,
            is_long: false,
            unsaved: Unsaved::NOTHING,
        })
    }

    /// Checks that no line is half typed.
    pub(crate) fn is_between_lines(&self) -> bool
        ensures { result ≡ ((length self.now.line.items == 0) && not self.now.is_long) }
    {
        self.line.is_empty() && !self.is_long
    }

    /// Checks that this byte is a blank before a line.
    fn is_blank_before(&self, byte: u8) -> bool
        ensures { result ≡ ((byte == 32) && ((length self.now.line.items == 0) && not self.now.is_long)) }
    {
        byte == b' ' && self.is_between_lines()
    }

    /// What may have changed since it was saved: of the notes, where some stand. It is told once, until the next change.
    pub(crate) fn take_unsaved(&mut self) -> Unsaved
        ensures told { result ≡ unsaved_here self.old.unsaved self.old.dialog.notes }
        ensures dialog { self.new.dialog ≡ self.old.dialog }
        ensures line { self.new.line.items ≡ self.old.line.items }
        ensures is_long { self.new.is_long ≡ self.old.is_long }
        ensures unsaved { self.new.unsaved ≡ all_saved }
    {
        let was = self.unsaved;
        self.unsaved = Unsaved::NOTHING;
        Unsaved {
            script: was.script,
            notes: was.notes && self.dialog.note_count() > 0,
        }
    }

    /// Takes the bytes on, and does what the lines say that they end, up to one that quits. Answers whether one did.
    pub(crate) fn feed<S: SaveFile>(
        &mut self,
        bytes: &[u8],
        files: &mut S,
        out: &mut Vec<u8, A>,
    ) -> Result<bool, AllocError>
        ensures goes { (front : List ℕ) → IsKept front self.old.line.items self.old.is_long → IfOk result (λ quits. quits ≡ false
            → (rest : List ℕ) × GoesOn S.saves S.gives front bytes.now (moment self.old.dialog self.old.unsaved files.old out.old.items)
            (moment self.new.dialog self.new.unsaved files.new out.new.items) rest × IsKept rest self.new.line.items self.new.is_long) }
        ensures quits { (front : List ℕ) → IsKept front self.old.line.items self.old.is_long → IfOk result (λ quits. quits ≡ true
            → Quits S.saves S.gives front bytes.now (moment self.old.dialog self.old.unsaved files.old out.old.items)
            (moment self.new.dialog self.new.unsaved files.new out.new.items)) }
        ensures starves { (front : List ℕ) → IsKept front self.old.line.items self.old.is_long → OnErr result
            (Starves S.saves S.gives front bytes.now (moment self.old.dialog self.old.unsaved files.old out.old.items) files.new) }
    {
        'bytes: for byte in bytes {
            match self.step(*byte, files, out) {
                Ok(false) => {}
                Ok(true) => return Ok(true),
                Err(refused) => return Err(refused),
            }
        }
        Ok(false)
    }

    /// Takes a byte, and answers whether it ended a line that quits. A blank before a line is dropped.
    fn step<S: SaveFile>(
        &mut self,
        byte: u8,
        files: &mut S,
        out: &mut Vec<u8, A>,
    ) -> Result<bool, AllocError>
        ensures ends { (front : List ℕ) → IsKept front self.old.line.items self.old.is_long → (byte == 10) ≡ true → IfOk result (λ quits.
            Answers S.saves S.gives (is_too_long front) (unblanked front) (moment self.old.dialog self.old.unsaved files.old out.old.items) quits
            (moment self.new.dialog self.new.unsaved files.new out.new.items) × IsKept [] self.new.line.items self.new.is_long) }
        ensures grows { (front : List ℕ) → IsKept front self.old.line.items self.old.is_long → (byte == 10) ≡ false → IfOk result (λ quits.
            (quits ≡ false) × (moment self.new.dialog self.new.unsaved files.new out.new.items ≡ moment self.old.dialog self.old.unsaved files.old out.old.items)
            × IsKept (front ++ byte ∷ []) self.new.line.items self.new.is_long) }
        ensures halts { (front : List ℕ) → IsKept front self.old.line.items self.old.is_long → (byte == 10) ≡ true → OnErr result
            (HaltsLine S.saves (is_too_long front) (unblanked front) (moment self.old.dialog self.old.unsaved files.old out.old.items) files.new) }
        ensures halted { (byte == 10) ≡ false → OnErr result (files.new ≡ files.old) }
    {
        if byte == b'\n' {
            return self.end_line(files, out);
        }
        match self.grow(byte) {
            Ok(()) => Ok(false),
            Err(refused) => Err(refused),
        }
    }

    /// Keeps a byte of a line, unless it is too long. A blank before a line is dropped.
    fn grow(&mut self, byte: u8) -> Result<(), AllocError>
        ensures grows { (front : List ℕ) → IsKept front self.old.line.items self.old.is_long → (byte == 10) ≡ false
            → OnOk result (IsKept (front ++ byte ∷ []) self.new.line.items self.new.is_long) }
        ensures dialog { self.new.dialog ≡ self.old.dialog }
        ensures unsaved { self.new.unsaved ≡ self.old.unsaved }
    {
        if self.is_blank_before(byte) {
            return Ok(());
        }
        if self.line.len() == MAX_LINE_BYTES {
            self.is_long = true;
            return Ok(());
        }
        self.line.push(byte)?;
        Ok(())
    }

    /// Does what the line says that ends here, and answers whether it quits.
    fn end_line<S: SaveFile>(
        &mut self,
        files: &mut S,
        out: &mut Vec<u8, A>,
    ) -> Result<bool, AllocError>
        ensures answers { IfOk result (λ quits. Answers S.saves S.gives self.old.is_long self.old.line.items
            (moment self.old.dialog self.old.unsaved files.old out.old.items) quits (moment self.new.dialog self.new.unsaved files.new out.new.items)) }
        ensures cleared { OnOk result ((self.new.line.items ≡ []) × (self.new.is_long ≡ false)) }
        ensures halts { OnErr result (HaltsLine S.saves self.old.is_long self.old.line.items
            (moment self.old.dialog self.old.unsaved files.old out.old.items) files.new) }
    {
        let done = self.do_line(files, out);
        self.is_long = false;
        self.line.clear();
        done
    }

    /// Does what the line says, unless it is too long, and answers whether it quits.
    fn do_line<S: SaveFile>(
        &mut self,
        files: &mut S,
        out: &mut Vec<u8, A>,
    ) -> Result<bool, AllocError>
        ensures answers { IfOk result (λ quits. Answers S.saves S.gives self.old.is_long self.old.line.items
            (moment self.old.dialog self.old.unsaved files.old out.old.items) quits (moment self.new.dialog self.new.unsaved files.new out.new.items)) }
        ensures halts { OnErr result (HaltsLine S.saves self.old.is_long self.old.line.items
            (moment self.old.dialog self.old.unsaved files.old out.old.items) files.new) }
    {
        if self.is_long {
            return tell_long(out);
        }
        self.obey_line(files, out)
    }

    /// Does what the line says, and answers whether it quits.
    fn obey_line<S: SaveFile>(
        &mut self,
        files: &mut S,
        out: &mut Vec<u8, A>,
    ) -> Result<bool, AllocError>
        ensures obeys { IfOk result (λ quits. Obeys S.saves S.gives self.old.line.items
            (moment self.old.dialog self.old.unsaved files.old out.old.items) quits (moment self.new.dialog self.new.unsaved files.new out.new.items)) }
        ensures halts { OnErr result (Halts S.saves self.old.line.items
            (moment self.old.dialog self.old.unsaved files.old out.old.items) files.new) }
    {
        let told = out.len();
        let notes = self.dialog.note_count();
        match self.dialog.obey(self.line.as_slice(), files, out) {
            Ok(quits) => {
                self.unsaved = self.unsaved_now(out.as_slice(), told, notes);
                Ok(quits)
            }
            Err(refused) => Err(refused),
        }
    }

    /// What is unsaved after the line, to which this was told from this place on, and before which there were so many notes.
    fn unsaved_now(&self, out: &[u8], told: usize, notes: usize) -> Unsaved
        ensures { result ≡ unsaved_after self.now.unsaved (command_of self.now.line.items) (drop told out.now) (nat_lt (length self.now.dialog.notes) notes) }
    {
        self.unsaved.after(
            self.line.as_slice(),
            told_from(out, told),
            self.dialog.note_count() < notes,
        )
    }
}

/// Tells that a line is too long, which doesn't end the session.
fn tell_long<A: Allocator + Copy>(out: &mut Vec<u8, A>) -> Result<bool, AllocError>
    ensures told { OnOk result (out.new.items ≡ out.old.items ++ too_long) }
    ensures stays { IfOk result (λ quits. quits ≡ false) }
{
    out.extend_from_slice(b"a line has at most 200 bytes\n")?;
    Ok(false)
}

/// What was told from this place on.
fn told_from(out: &[u8], place: usize) -> &[u8]
    ensures { result.now ≡ drop place out.now }
{
    let from = place.min(out.len());
    &out[from..]
}
