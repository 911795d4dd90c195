ghost use Rattle.std.specs.Prelude.{◌≡◌, ◌<◌, ◌≤◌, IfErr, IfOk, OnOk, length};
ghost use Rattle.shm_prompt.specs.declared.read_refusal.ReadRefusal.TheVariants.{TooLong};

use crate::script_file::{MAX_BYTES, read_script_file};
use crate::script_file_error::ScriptFileFault;
use shm_prompt::{ReadRefusal, SaveFile};
use std::alloc::Allocator;
use std::rt::Files;
use std::{fs, io};

/// The files of the machine.
#[derive(Drop)]
pub(crate) struct Disk<'a, R: AllocGlobal + Files> {
    pub(crate) rt: &'a R,
}

impl<R: AllocGlobal + Files> SaveFile for Disk<'_, R> {
    ghost use Rattle.std.specs.Prelude.{None, ⊤};

    ghost saves = { λ _. None };

    ghost gives = { λ _ _ _. ⊤ };

    fn save(&mut self, name: &str, bytes: &[u8]) -> io::Result<()> {
        fs::write(self.rt, name, bytes)
    }

    fn read<A: Allocator + Copy>(&self, alloc: A, name: &str) -> Result<Vec<u8, A>, ReadRefusal> {
        match read_script_file(self.rt, name) {
            Ok(bytes) => copy_script(alloc, bytes.as_slice()),
            Err(ScriptFileFault::OutOfMemory) => Err(ReadRefusal::OutOfMemory),
            Err(_) => Err(ReadRefusal::Unread),
        }
    }
}

/// The bytes of a script that was read, unless it is longer than any: then these are the front of a file.
fn copy_script<A: Allocator + Copy>(alloc: A, bytes: &[u8]) -> Result<Vec<u8, A>, ReadRefusal>
    ensures whole { IfOk result (λ copy. copy.items ≡ bytes.now) }
    ensures short { OnOk result (length bytes.now < MAX_BYTES) }
    ensures long { IfErr result (λ refusal. refusal ≡ TooLong → MAX_BYTES ≤ length bytes.now) }
{
    if bytes.len() >= MAX_BYTES {
        return Err(ReadRefusal::TooLong);
    }
    match bytes.to_vec(alloc) {
        Ok(copy) => Ok(copy),
        Err(_) => Err(ReadRefusal::OutOfMemory),
    }
}
