//! The dialog itself: each line is answered before the next is read.
ghost use Rattle.std.specs.Prelude.{◌≡◌, ◌==◌, ◌++◌, ◌&&◌, ℕ, List, [], length, false, true, not, IfErr, IfOk, OnErr, OnOk};
ghost use Rattle.std.specs.Io.KnownBytes.{Appends};
ghost use Rattle.shm_prompt.specs.Sitting as sitting;
ghost use Rattle.shm_prompt.specs.Sitting.{Ends, GivenLast, GivenOn, NotShown, all_saved, end_text, greeting, is_unsaved, nothing_typed, told_if, unsaved_here};
ghost use Rattle.shm_prompt.specs.Typing.{IsKept, Starves, moment};
ghost use Rattle.shm_prompt.specs.declared.prompt_error.PromptFault.TheVariants.{WriteFault};

use crate::line_assembler::Typed;
use crate::prompt_error::PromptFault;
use crate::save_file_trait::SaveFile;
use shm_text::{read_up_to, write_whole};
use std::alloc::{AllocError, Allocator};
use std::io::{Read, Write};

/// The most bytes that are read at once.
const CHUNK: usize = 4096;

/// What a person at a terminal is greeted with.
const GREETING: &[u8] = b"shmdbg prompt: `help` lists what you may type, `exit` or Ctrl-D ends.
`rlwrap shmdbg prompt` keeps a history of lines and edits them.
";

/// What stands before the line that a person types.
const MARK: &[u8] = b"> ";

/// What is told where the input ends and what stands isn't saved.
const UNSAVED: &[u8] = b"what stands is not saved: `save FILE` first, or Ctrl-D again\n";

/// The same of its notes.
const UNSAVED_NOTES: &[u8] = b"notes are not saved: `notes FILE` first, or Ctrl-D again\n";

/// The debugger's session for people at a terminal: reads line by line, to the input's end or to `quit`, and answers each line. After a
/// wrong line, which it explains, it goes on.
///
/// Before each read, and at the end, it writes all output and flushes the writer. A line has at most 200 bytes; what stands after the last
/// line feed is none. Any error of the reader or the writer ends it, and so does refused memory.
///
/// Where `is_terminal`, a person is greeted, and a mark stands before each line; and the input's end, which may come again, ends the session
/// only the second time where what stands, or a note, isn't saved.
pub fn prompt<A: Allocator + Copy, R: Read, W: Write, S: SaveFile>(
    alloc: A,
    reader: &mut R,
    writer: &mut W,
    files: &mut S,
    is_terminal: bool,
) -> Result<(), PromptFault>
    ensures { (text : List ℕ) × Appends (W.contents writer.old) (W.contents writer.new) text
        × Ends S.saves S.gives is_terminal (nothing_typed is_terminal (R.remaining reader.old) files.old) result (R.remaining reader.new) files.new text }
{
    let Ok(mut typed) = Typed::new(alloc) else {
        return Err(PromptFault::OutOfMemory);
    };
    let mut out = Vec::new(alloc);
    match greet(is_terminal, &mut out) {
        Ok(()) => {}
        Err(_) => return Err(PromptFault::OutOfMemory),
    }
    let mut chunk = [0u8; CHUNK];
    'reads: for _ in 0..u64::MAX {
        match show(is_terminal, &typed, &mut out, writer) {
            Ok(()) => {}
            Err(fault) => return Err(fault),
        }
        let Ok(count) = read_up_to(reader, &mut chunk, CHUNK) else {
            return Err(PromptFault::ReadFault);
        };
        match take(is_terminal, &mut typed, &chunk[..count], files, &mut out) {
            Ok(false) => {}
            Ok(true) => return write_and_flush(&mut out, writer),
            Err(_) => return Err(PromptFault::OutOfMemory),
        }
    }
    // No run reads so often.
    match show(is_terminal, &typed, &mut out, writer) {
        Ok(()) => Err(PromptFault::ReadFault),
        Err(fault) => Err(fault),
    }
}

/// Writes all output, and marks the next line.
fn show<A: Allocator + Copy, W: Write>(
    is_terminal: bool,
    typed: &Typed<A>,
    out: &mut Vec<u8, A>,
    writer: &mut W,
) -> Result<(), PromptFault>
    ensures shown { (front : List ℕ) → IsKept front typed.now.line.items typed.now.is_long
        → OnOk result (Appends (W.contents writer.old) (W.contents writer.new) (out.old.items ++ sitting.mark is_terminal front)) }
    ensures emptied { OnOk result (out.new.items ≡ []) }
    ensures fault { (front : List ℕ) → IsKept front typed.now.line.items typed.now.is_long
        → IfErr result (NotShown (W.contents writer.old) (W.contents writer.new) (out.old.items ++ sitting.mark is_terminal front)) }
{
    match mark(is_terminal, typed, out) {
        Ok(()) => write_and_flush(out, writer),
        Err(_) => Err(PromptFault::OutOfMemory),
    }
}

/// Takes the bytes that were read, where there are none the input's end, and answers whether the session ends.
fn take<A: Allocator + Copy, S: SaveFile>(
    is_terminal: bool,
    typed: &mut Typed<A>,
    bytes: &[u8],
    files: &mut S,
    out: &mut Vec<u8, A>,
) -> Result<bool, AllocError>
    ensures goes { (front : List ℕ) → IsKept front typed.old.line.items typed.old.is_long → IfOk result (λ ends. ends ≡ false
        → (rest : List ℕ) × GivenOn S.saves S.gives is_terminal front bytes.now (moment typed.old.dialog typed.old.unsaved files.old out.old.items)
        (moment typed.new.dialog typed.new.unsaved files.new out.new.items) rest × IsKept rest typed.new.line.items typed.new.is_long) }
    ensures ends { (front : List ℕ) → IsKept front typed.old.line.items typed.old.is_long → IfOk result (λ ends. ends ≡ true
        → GivenLast S.saves S.gives is_terminal front bytes.now (moment typed.old.dialog typed.old.unsaved files.old out.old.items)
        (moment typed.new.dialog typed.new.unsaved files.new out.new.items)) }
    ensures starves { (front : List ℕ) → IsKept front typed.old.line.items typed.old.is_long → OnErr result
        (Starves S.saves S.gives front bytes.now (moment typed.old.dialog typed.old.unsaved files.old out.old.items) files.new) }
{
    if bytes.is_empty() {
        return end(is_terminal, typed, out);
    }
    typed.feed(bytes, files, out)
}

/// Greets a person.
fn greet<A: Allocator + Copy>(is_terminal: bool, out: &mut Vec<u8, A>) -> Result<(), AllocError>
    ensures { OnOk result (out.new.items ≡ out.old.items ++ greeting is_terminal) }
{
    tell_if(is_terminal, GREETING, out)
}

/// Marks the next line, unless one is half typed.
fn mark<A: Allocator + Copy>(
    is_terminal: bool,
    typed: &Typed<A>,
    out: &mut Vec<u8, A>,
) -> Result<(), AllocError>
    ensures { (front : List ℕ) → IsKept front typed.now.line.items typed.now.is_long
        → OnOk result (out.new.items ≡ out.old.items ++ sitting.mark is_terminal front) }
{
    tell_if(is_marked(is_terminal, typed), MARK, out)
}

/// Checks that the next line is marked.
fn is_marked<A: Allocator + Copy>(is_terminal: bool, typed: &Typed<A>) -> bool
    ensures { result ≡ (is_terminal && ((length typed.now.line.items == 0) && not typed.now.is_long)) }
{
    is_terminal && typed.is_between_lines()
}

/// At the input's end: whether the session ends. A person is told first of what isn't saved.
fn end<A: Allocator + Copy>(
    is_terminal: bool,
    typed: &mut Typed<A>,
    out: &mut Vec<u8, A>,
) -> Result<bool, AllocError>
    ensures ends { IfOk result (λ ends. ends ≡ not (is_terminal && is_unsaved (unsaved_here typed.old.unsaved typed.old.dialog.notes))) }
    ensures told { OnOk result (out.new.items
        ≡ out.old.items ++ told_if is_terminal (end_text (unsaved_here typed.old.unsaved typed.old.dialog.notes))) }
    ensures dialog { typed.new.dialog ≡ typed.old.dialog }
    ensures line { typed.new.line.items ≡ typed.old.line.items }
    ensures is_long { typed.new.is_long ≡ typed.old.is_long }
    ensures unsaved { OnOk result (is_terminal ≡ true → typed.new.unsaved ≡ all_saved) }
{
    if !is_terminal {
        return Ok(true);
    }
    let unsaved = typed.take_unsaved();
    out.extend_from_slice(b"\n")?;
    tell_if(unsaved.script, UNSAVED, out)?;
    tell_if(unsaved.notes, UNSAVED_NOTES, out)?;
    Ok(!unsaved.script && !unsaved.notes)
}

/// Tells this, if it is so.
fn tell_if<A: Allocator + Copy>(
    is: bool,
    text: &[u8],
    out: &mut Vec<u8, A>,
) -> Result<(), AllocError>
    ensures { OnOk result (out.new.items ≡ out.old.items ++ told_if is text.now) }
{
    if is {
        return out.extend_from_slice(text);
    }
    Ok(())
}

/// Writes all output, empties it, and flushes the writer.
fn write_and_flush<A: Allocator + Copy, W: Write>(
    out: &mut Vec<u8, A>,
    writer: &mut W,
) -> Result<(), PromptFault>
    ensures written { OnOk result (Appends (W.contents writer.old) (W.contents writer.new) out.old.items) }
    ensures emptied { OnOk result (out.new.items ≡ []) }
    ensures fault { IfErr result (NotShown (W.contents writer.old) (W.contents writer.new) out.old.items) }
    ensures memory { IfErr result (λ fault. fault ≡ WriteFault) }
{
    if write_whole(writer, out.as_slice()).is_err() {
        return Err(PromptFault::WriteFault);
    }
    out.clear();
    match writer.flush() {
        Ok(()) => Ok(()),
        Err(_) => Err(PromptFault::WriteFault),
    }
}
