//! Where a running site's journal lies: a shorter one may take its place there.
use crate::journal_startup::Lock;
use crate::renew_journal::renew;
use crate::shortening_error::ShorteningFault;
use shm_batches::Chain;
use std::rt::Files;

/// A journal that took the place of another.
#[derive(Drop)]
pub struct Renewed<F> {
    /// Its file, which this process alone has.
    pub file: F,
    /// Its batches.
    pub chain: Chain,
    /// How many bytes it has. They are durable.
    pub bytes: u64,
}

/// A place where a journal lies in a file of type `F`.
pub trait Place<F> {
    ghost use Rattle.std.specs.Prelude.{◌≡◌, ◌⊎◌, ℕ, List, Option, IfErr, OnOk};
    ghost use Rattle.shm_command.specs.Shortening.{TookPlace};
    ghost use Rattle.shm_command.specs.declared.shortening_error.ShorteningFault.TheVariants as fault;

    /// The lines of the journals that took a place there, the last one first, if they are known.
    ghost journals: { Self → Option (List (List ℕ)) };

    /// Has a journal of these lines take the place of the one that lies there. Where that fails, but for `ShorteningFault::Unlisted`, the one
    /// that lies there stays.
    fn renew(&mut self, lines: &[u8]) -> Result<Renewed<F>, ShorteningFault>
        ensures took { OnOk result (TookPlace (journals self.old) (journals self.new) lines.now) }
        ensures stays { IfErr result (λ why. (why ≡ fault.Unlisted) ⊎ (journals self.new ≡ journals self.old)) };
}

/// A file's name.
#[derive(Drop)]
pub(crate) struct NamedFile<'a, R: AllocGlobal + Files> {
    pub(crate) rt: &'a R,
    pub(crate) name: &'a str,
    /// Whether the whole journal goes, or is kept under a name with a number.
    pub(crate) forgets: bool,
}

impl<R: AllocGlobal + Files> Place<R::File> for NamedFile<'_, R>
where
    R::File: Lock,
{
    ghost use Rattle.std.specs.Prelude.{None};

    ghost journals = { λ _. None };

    fn renew(&mut self, lines: &[u8]) -> Result<Renewed<R::File>, ShorteningFault> {
        renew(self.rt, self.name, self.forgets, lines)
    }
}
