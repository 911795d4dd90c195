//! Replays the script of a file, or the one on the input.
ghost use Rattle.std.specs.Prelude.{◌≢◌, ◌<◌, IfSome};
ghost use Rattle.shm_debug.specs.Script.{script_of};
ghost use Rattle.shm_command.specs.Around.{streams};
ghost use Rattle.shm_command.specs.Done.{ReplaysFrom};
ghost use Rattle.shm_command.specs.Status.{Replays, ReplaysFile};

use crate::error_text_and_status;
use crate::recalling_input::Recalls;
use crate::script_file::{WholeScript, read_script_file};
use crate::show_wrong_line::script_fault;
use shm_debug::replay;
use std::alloc::Global;
use std::io::{Read, Write};
use std::rt::Files;

/// Replays the script of a file, if one is named, or else the one on the input, and answers the exit status.
pub(crate) fn replay_from<R: AllocGlobal + Files, I: Read + Recalls, O: Write, E: Write>(
    rt: &R,
    file: Option<&str>,
    reader: &mut I,
    out: &mut O,
    errors: &mut E,
) -> u8
    ensures range { result < 4 }
    ensures taken { result ≢ 2 }
    ensures replayed { ReplaysFrom file.entry result
        (streams (I.remaining reader.old) (O.contents out.old)) (streams (I.remaining reader.new) (O.contents out.new)) }
{
    match file {
        Some(name) => replay_file(rt, name, out, errors),
        None => replay_script(rt, reader, out, errors),
    }
}

/// Replays the script of the file of this name, and answers the exit status.
fn replay_file<R: AllocGlobal + Files, O: Write, E: Write>(
    rt: &R,
    name: &str,
    out: &mut O,
    errors: &mut E,
) -> u8
    ensures range { result < 4 }
    ensures taken { result ≢ 2 }
    ensures replayed { ReplaysFile result (O.contents out.old) (O.contents out.new) }
{
    match read_script_file(rt, name) {
        Ok(script) => replay_whole(rt.alloc(), script.as_slice(), out, errors),
        Err(fault) => error_text_and_status::script_file_fault(fault, name, errors),
    }
}

/// Replays a script that was read whole, and answers the exit status.
fn replay_whole<O: Write, E: Write>(alloc: Global, script: &[u8], out: &mut O, errors: &mut E) -> u8
    ensures range { result < 4 }
    ensures taken { result ≢ 2 }
    ensures replayed { Replays (script_of script.now) result (O.contents out.old) (O.contents out.new) }
{
    let mut rest = script;
    match replay(alloc, &mut rest, out) {
        Ok(_) => 0,
        Err(fault) => script_fault(fault, &WholeScript { bytes: script }, errors),
    }
}

/// Replays the script on the input, and answers the exit status.
fn replay_script<R: AllocGlobal, I: Read + Recalls, O: Write, E: Write>(
    rt: &R,
    reader: &mut I,
    out: &mut O,
    errors: &mut E,
) -> u8
    ensures range { result < 4 }
    ensures taken { result ≢ 2 }
    ensures replayed { IfSome (I.remaining reader.old) (λ bytes.
        Replays (script_of bytes) result (O.contents out.old) (O.contents out.new)) }
{
    match replay(rt.alloc(), reader, out) {
        Ok(_) => 0,
        Err(fault) => script_fault(fault, reader, errors),
    }
}
