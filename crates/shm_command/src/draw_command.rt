//! Draws what a script leaves, with captions where notes are named.
ghost use Rattle.std.specs.Prelude.{◌≢◌, ◌<◌, ℕ, List, IfSome, Some};
ghost use Rattle.std.specs.Io.KnownBytes.{Appends};
ghost use Rattle.shm_debug.specs.Script.{script_of};
ghost use Rattle.shm_draw.specs.Captions.{besides_of};
ghost use Rattle.shm_command.specs.Around.{streams};
ghost use Rattle.shm_command.specs.Done.{PicturesFrom, PicturesNoted};
ghost use Rattle.shm_command.specs.Status.{DrawsAs, Pictures, PicturesFile};

use crate::error_text_and_status;
use crate::recalling_input::Recalls;
use crate::script_file::{WholeScript, read_script_file};
use crate::show_wrong_line::script_fault;
use shm_debug::DebugFault;
use shm_draw::{Caption, draw, parse_captions};
use shm_place::PageId;
use shm_steps::draw_steps;
use std::alloc::Global;
use std::io::{Read, Write};
use std::rt::Files;

/// Draws what a script leaves, with the captions of the notes in a file, if one is named, and answers the exit status.
pub(crate) fn picture_noted<R: AllocGlobal + Files, I: Read + Recalls, O: Write, E: Write>(
    rt: &R,
    page: Option<PageId>,
    steps: bool,
    notes: Option<&str>,
    file: Option<&str>,
    reader: &mut I,
    out: &mut O,
    errors: &mut E,
) -> u8
    ensures range { result < 4 }
    ensures taken { result ≢ 2 }
    ensures drawn { PicturesNoted notes.entry file.entry steps page result
        (streams (I.remaining reader.old) (O.contents out.old)) (streams (I.remaining reader.new) (O.contents out.new)) }
{
    match notes {
        Some(name) => picture_captioned(rt, page, steps, name, file, reader, out, errors),
        None => picture_from(rt, page, steps, &[], file, reader, out, errors),
    }
}

/// Draws what a script leaves, with the captions of the notes in the file of this name, and answers the exit status. Where they have a
/// fault no script is read.
fn picture_captioned<R: AllocGlobal + Files, I: Read + Recalls, O: Write, E: Write>(
    rt: &R,
    page: Option<PageId>,
    steps: bool,
    notes: &str,
    file: Option<&str>,
    reader: &mut I,
    out: &mut O,
    errors: &mut E,
) -> u8
    ensures range { result < 4 }
    ensures taken { result ≢ 2 }
    ensures drawn { PicturesNoted (Some notes.now) file.entry steps page result
        (streams (I.remaining reader.old) (O.contents out.old)) (streams (I.remaining reader.new) (O.contents out.new)) }
{
    let bytes = match read_script_file(rt, notes) {
        Ok(bytes) => bytes,
        Err(fault) => return error_text_and_status::script_file_fault(fault, notes, errors),
    };
    match parse_captions(rt.alloc(), bytes.as_slice()) {
        Ok(captions) => picture_from(
            rt,
            page,
            steps,
            captions.as_slice(),
            file,
            reader,
            out,
            errors,
        ),
        Err(fault) => error_text_and_status::caption_fault(fault, notes, errors),
    }
}

/// Draws what the script of a file leaves, if one is named, or else the one on the input, and answers the exit status.
fn picture_from<R: AllocGlobal + Files, I: Read + Recalls, O: Write, E: Write>(
    rt: &R,
    page: Option<PageId>,
    steps: bool,
    captions: &[Caption<'_>],
    file: Option<&str>,
    reader: &mut I,
    out: &mut O,
    errors: &mut E,
) -> u8
    ensures range { result < 4 }
    ensures taken { result ≢ 2 }
    ensures drawn { PicturesFrom file.entry steps page (besides_of captions.now) result
        (streams (I.remaining reader.old) (O.contents out.old)) (streams (I.remaining reader.new) (O.contents out.new)) }
{
    match file {
        Some(name) => picture_file(rt, page, steps, captions, name, out, errors),
        None => picture(rt, page, steps, captions, reader, out, errors),
    }
}

/// Draws what the script of the file of this name leaves, and answers the exit status.
fn picture_file<R: AllocGlobal + Files, O: Write, E: Write>(
    rt: &R,
    page: Option<PageId>,
    steps: bool,
    captions: &[Caption<'_>],
    name: &str,
    out: &mut O,
    errors: &mut E,
) -> u8
    ensures range { result < 4 }
    ensures taken { result ≢ 2 }
    ensures drawn { PicturesFile steps page (besides_of captions.now) result (O.contents out.old) (O.contents out.new) }
{
    match read_script_file(rt, name) {
        Ok(script) => picture_whole(
            rt.alloc(),
            page,
            steps,
            captions,
            script.as_slice(),
            out,
            errors,
        ),
        Err(fault) => error_text_and_status::script_file_fault(fault, name, errors),
    }
}

/// Draws what a script leaves that was read whole, and answers the exit status.
fn picture_whole<O: Write, E: Write>(
    alloc: Global,
    page: Option<PageId>,
    steps: bool,
    captions: &[Caption<'_>],
    script: &[u8],
    out: &mut O,
    errors: &mut E,
) -> u8
    ensures range { result < 4 }
    ensures taken { result ≢ 2 }
    ensures drawn { Pictures steps page (besides_of captions.now) (script_of script.now) result (O.contents out.old) (O.contents out.new) }
{
    let mut rest = script;
    match draw_as(alloc, page, steps, captions, &mut rest, out) {
        Ok(()) => 0,
        Err(undrawn) => script_fault(undrawn, &WholeScript { bytes: script }, errors),
    }
}

/// Draws what the script on the input leaves, and answers the exit status.
fn picture<R: AllocGlobal, I: Read + Recalls, O: Write, E: Write>(
    rt: &R,
    page: Option<PageId>,
    steps: bool,
    captions: &[Caption<'_>],
    reader: &mut I,
    out: &mut O,
    errors: &mut E,
) -> u8
    ensures range { result < 4 }
    ensures taken { result ≢ 2 }
    ensures drawn { IfSome (I.remaining reader.old) (λ bytes.
        Pictures steps page (besides_of captions.now) (script_of bytes) result (O.contents out.old) (O.contents out.new)) }
{
    match draw_as(rt.alloc(), page, steps, captions, reader, out) {
        Ok(()) => 0,
        Err(undrawn) => script_fault(undrawn, reader, errors),
    }
}

/// Draws what the script on the reader leaves: its picture, or its steps.
fn draw_as<R: Read, W: Write>(
    alloc: Global,
    page: Option<PageId>,
    steps: bool,
    captions: &[Caption<'_>],
    reader: &mut R,
    out: &mut W,
) -> Result<(), DebugFault>
    ensures { IfSome (R.remaining reader.old) (λ bytes. (text : List ℕ) × Appends (W.contents out.old) (W.contents out.new) text
        × DrawsAs steps page (besides_of captions.now) (script_of bytes) result text) }
{
    if steps {
        return draw_steps(alloc, reader, out, page, captions);
    }
    draw(alloc, reader, out, page, captions)
}
