//! A script that lies in a file. It is read whole before its first line is answered.
ghost use Rattle.std.specs.Prelude.{◌≡◌, take, IfOk, IfSome};
ghost use Rattle.shm_debug.specs.Limits.{max_bytes};

use crate::recalling_input::Recalls;
use crate::script_file_error::ScriptFileFault;
use shm_text::read_up_to;
use std::alloc::Global;
use std::fs::{self, File};
use std::io::{ErrorKind, Read};
use std::rt::Files;

/// How many bytes are read at most: one byte more than all lines of a script can have.
pub(crate) const MAX_BYTES: usize = 100_000 * 201 + 1;

/// How many bytes are read at once.
const CHUNK: usize = 8192;

/// The lines of a script that was read whole.
#[derive(Clone, Copy)]
pub(crate) struct WholeScript<'a> {
    pub(crate) bytes: &'a [u8],
}

impl Recalls for WholeScript<'_> {
    ghost use Rattle.std.specs.Prelude.{false};

    ghost typed = { λ _. false };

    fn recall(&self, number: u64) -> Option<&[u8]> {
        let before = number.checked_sub(1)?;
        self.bytes.split(|byte| *byte == b'\n').nth(before as usize)
    }

    fn is_terminal(&self) -> bool {
        false
    }
}

/// The bytes of the file of this name.
pub(crate) fn read_script_file<R: AllocGlobal + Files>(
    rt: &R,
    name: &str,
) -> Result<Vec<u8>, ScriptFileFault> {
    match look_at(rt, name) {
        Ok(()) => {}
        Err(fault) => return Err(fault),
    }
    let Ok(file) = File::open(rt, name) else {
        return Err(ScriptFileFault::Unopened);
    };
    let mut file = file;
    read_whole(rt.alloc(), &mut file)
}

/// Looks at what has this name: there has to be something, and no folder.
fn look_at<R: Files>(rt: &R, name: &str) -> Result<(), ScriptFileFault> {
    match fs::metadata(rt, name) {
        Ok(found) if found.is_dir() => Err(ScriptFileFault::Folder),
        Ok(_) => Ok(()),
        Err(error) if error.kind() == ErrorKind::NotFound => Err(ScriptFileFault::Missing),
        Err(_) => Err(ScriptFileFault::Unopened),
    }
}

/// Reads to the end, or until there are more bytes than a script can have. Where the reader answers an error, of whatever kind, no more is
/// read.
fn read_whole<F: Read>(alloc: Global, file: &mut F) -> Result<Vec<u8>, ScriptFileFault>
    ensures { IfOk result (λ bytes. IfSome (F.remaining file.old) (λ all. bytes.items ≡ take max_bytes all)) }
{
    let mut bytes = Vec::new(alloc);
    let mut chunk = [0u8; CHUNK];
    'chunks: while bytes.len() < MAX_BYTES {
        let room = MAX_BYTES - bytes.len();
        let Ok(count) = read_up_to(file, &mut chunk, room) else {
            return Err(ScriptFileFault::Unread);
        };
        if count == 0 {
            return Ok(bytes);
        }
        match bytes.extend_from_slice(&chunk[..count]) {
            Ok(()) => {}
            Err(_) => return Err(ScriptFileFault::OutOfMemory),
        }
    }
    Ok(bytes)
}
