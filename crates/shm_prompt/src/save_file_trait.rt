use crate::read_refusal::ReadRefusal;
use std::alloc::Allocator;
use std::io;

/// Where scripts and notes are saved, and scripts are opened.
pub trait SaveFile {
    ghost use Rattle.std.specs.Prelude.{ℕ, List, Option, IfErr, IfOk, OnErr, OnOk};
    ghost use Rattle.shm_prompt.specs.Given.{Bytes, Given, GivesRefusal};
    ghost use Rattle.shm_prompt.specs.Saves.{Adds, Failed, Save, Whole};

    /// What was saved through it, if that is known.
    ghost saves: { Self → Option (List Save) };

    /// What the file of a name may give when it is read.
    ghost gives: { Self → List ℕ → Given → Type 0 };

    /// Writes a whole file of this name. At an error a front of it may have been written.
    fn save(&mut self, name: &str, bytes: &[u8]) -> io::Result<()>
        ensures saved { OnOk result (Adds (saves self.old) (saves self.new) (Whole name.now bytes.now)) }
        ensures failed { OnErr result (Adds (saves self.old) (saves self.new) (Failed name.now bytes.now)) };

    /// All bytes of the file of this name.
    fn read<A: Allocator + Copy>(&self, alloc: A, name: &str) -> Result<Vec<u8, A>, ReadRefusal>
        ensures given { IfOk result (λ bytes. gives self.now name.now (Bytes bytes.items)) }
        ensures refused { IfErr result (GivesRefusal (gives self.now name.now)) };
}
