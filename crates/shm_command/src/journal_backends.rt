//! The journals that a site's process may have: a file, or none.
ghost use Rattle.std.specs.Io.KnownBytes.{Appends};
ghost use Rattle.std.specs.Prelude.{◌≡◌, ◌-◌, ◌*◌, ◌^◌, ℕ, OnErr, OnOk, min, take};
ghost use Rattle.shm_command.specs.Shortening.{due_behind};

use crate::journal_place::Renewed;
use crate::journal_startup::cut;
use shm_batches::{Chain, write_batch};
use shm_journal::{Failed, Journal};
use shm_text::{read_up_to, write_whole};
use std::alloc::Global;
use std::fs::OpenFile;
use std::io::{self, Read, Write};
use std::mem;

/// None: what is appended is forgotten.
#[derive(Clone, Copy)]
pub(crate) struct NoJournal;

impl Journal for NoJournal {
    ghost use Rattle.std.specs.Prelude.{None, false};

    ghost acts = { λ _. None };

    ghost due = { λ _. false };

    fn is_due(&self) -> bool {
        false
    }

    fn read<R: Read>(&mut self, reader: &mut R, chunk: &mut [u8]) -> Result<usize, Failed> {
        let most = chunk.len();
        match read_up_to(reader, chunk, most) {
            Ok(count) => Ok(count),
            Err(_) => Err(Failed),
        }
    }

    fn append(&mut self, _text: &[u8]) -> Result<(), Failed> {
        Ok(())
    }

    fn sync(&mut self) -> Result<(), Failed> {
        Ok(())
    }

    fn tell<W: Write>(&mut self, writer: &mut W, text: &[u8]) -> Result<(), Failed> {
        write_flushed(writer, text)
    }
}

/// A file, at whose end batches are written.
#[derive(Drop)]
pub struct JournalFile<F> {
    alloc: Global,
    file: F,
    chain: Chain,
    durable: u64,
    loose: u64,
    /// How many durable bytes it has at least where it is made shorter; 0: it never is.
    shorten_at: u64,
    /// How many it waits for: more where it begins with a long state, or couldn't be made shorter.
    due_at: u64,
}

impl<F: OpenFile> JournalFile<F> {
    /// A file of these batches in this many bytes, all of them durable. It is due to be made shorter at `shorten_at` bytes; at 0 it never is.
    pub fn new(
        alloc: Global,
        file: F,
        chain: Chain,
        durable: u64,
        shorten_at: u64,
    ) -> JournalFile<F>
        ensures file { result.file ≡ file }
        ensures chain { result.chain ≡ chain }
        ensures durable { result.durable ≡ durable }
        ensures loose { result.loose ≡ 0 }
        ensures at { (result.shorten_at ≡ shorten_at) × (result.due_at ≡ shorten_at) }
    {
        JournalFile {
            alloc,
            file,
            chain,
            durable,
            loose: 0,
            shorten_at,
            due_at: shorten_at,
        }
    }

    /// How many of its bytes are durable.
    pub(crate) fn durable(&self) -> u64
        ensures { result ≡ self.now.durable }
    {
        self.durable
    }

    /// It couldn't be made shorter: it is due again at twice as many bytes as it has.
    pub(crate) fn put_off(&mut self)
        ensures later { self.new.due_at ≡ min (2 * self.old.durable) (2 ^ 64 - 1) }
        ensures same { self.new ≡ record self.old { due_at = self.new.due_at } }
    {
        self.due_at = self.durable.saturating_mul(2);
    }

    /// Cuts off what isn't durable. After a failure to make it durable the system may give it back when it is read, and may yet lose it.
    pub(crate) fn cut_back(&self) -> io::Result<()> {
        cut(&self.file, self.durable)
    }
}

impl<F: OpenFile + Drop> JournalFile<F> {
    /// Goes on in the file that took its place. It is due to be made shorter when it has twice the bytes that it begins with, and those at
    /// which any is.
    pub(crate) fn go_on_in(&mut self, renewed: Renewed<F>)
        ensures file { self.new.file ≡ renewed.file }
        ensures chain { self.new.chain ≡ renewed.chain }
        ensures durable { self.new.durable ≡ renewed.bytes }
        ensures loose { self.new.loose ≡ 0 }
        ensures at { self.new.shorten_at ≡ self.old.shorten_at }
        ensures due { self.new.due_at ≡ due_behind self.old.shorten_at renewed.bytes }
    {
        let Renewed { file, chain, bytes } = renewed;
        drop(mem::replace(&mut self.file, file));
        self.chain = chain;
        self.durable = bytes;
        self.loose = 0;
        self.due_at = bytes.saturating_mul(2).max(self.shorten_at);
    }
}

impl<F: Write + OpenFile> Journal for JournalFile<F> {
    ghost use Rattle.std.specs.Prelude.{◌+◌, ◌-◌, ◌^◌, None, length, min};
    ghost use Rattle.shm_batches.specs.Chain.{batch_text, with_batch};
    ghost use Rattle.shm_batches.specs.ChainOf.{chain_of};
    ghost use Rattle.shm_command.specs.Shortening.{is_due};

    ghost acts = { λ _. None };

    ghost due = { λ journal. is_due journal.shorten_at journal.due_at journal.durable };

    fn is_due(&self) -> bool {
        self.shorten_at > 0 && self.durable >= self.due_at
    }

    fn read<R: Read>(&mut self, reader: &mut R, chunk: &mut [u8]) -> Result<usize, Failed> {
        let most = chunk.len();
        match read_up_to(reader, chunk, most) {
            Ok(count) => Ok(count),
            Err(_) => Err(Failed),
        }
    }

    /// Appends a batch of these lines.
    fn append(&mut self, text: &[u8]) -> Result<(), Failed>
        ensures batch { OnOk result (Appends (F.contents self.old.file) (F.contents self.new.file) (batch_text (chain_of self.old.chain) text.now)) }
        ensures chain { OnOk result (chain_of self.new.chain ≡ with_batch (chain_of self.old.chain) text.now) }
        ensures counted { OnOk result (self.new.loose ≡ min (self.old.loose + length (batch_text (chain_of self.old.chain) text.now)) (2 ^ 64 - 1)) }
        ensures front { OnErr result ((n : ℕ) × Appends (F.contents self.old.file) (F.contents self.new.file) (take n (batch_text (chain_of self.old.chain) text.now))) }
        ensures uncounted { OnErr result ((self.new.chain ≡ self.old.chain) × (self.new.loose ≡ self.old.loose)) }
        ensures durable { self.new.durable ≡ self.old.durable }
    {
        match write_batch(self.alloc, &mut self.file, &mut self.chain, text) {
            Ok(count) => {
                self.loose = self.loose.saturating_add(count);
                Ok(())
            }
            Err(_) => Err(Failed),
        }
    }

    /// Makes durable what was appended. Where that fails nothing counts as durable that didn't before.
    fn sync(&mut self) -> Result<(), Failed>
        ensures durable { OnOk result (self.new.durable ≡ min (self.old.durable + self.old.loose) (2 ^ 64 - 1)) }
        ensures none_loose { OnOk result (self.new.loose ≡ 0) }
        ensures undurable { OnErr result ((self.new.durable ≡ self.old.durable) × (self.new.loose ≡ self.old.loose)) }
        ensures file { self.new.file ≡ self.old.file }
        ensures chain { self.new.chain ≡ self.old.chain }
    {
        match self.file.sync_data() {
            Ok(()) => {
                self.durable = self.durable.saturating_add(self.loose);
                self.loose = 0;
                Ok(())
            }
            Err(_) => Err(Failed),
        }
    }

    fn tell<W: Write>(&mut self, writer: &mut W, text: &[u8]) -> Result<(), Failed> {
        write_flushed(writer, text)
    }
}

/// Writes the text, and flushes the writer: nobody waits for it while the reader waits.
fn write_flushed<W: Write>(writer: &mut W, text: &[u8]) -> Result<(), Failed>
    ensures all { OnOk result (Appends (W.contents writer.old) (W.contents writer.new) text.now) }
    ensures front { OnErr result ((n : ℕ) × Appends (W.contents writer.old) (W.contents writer.new) (take n text.now)) }
{
    match write_whole(writer, text) {
        Ok(()) => {}
        Err(_) => return Err(Failed),
    }
    match writer.flush() {
        Ok(()) => Ok(()),
        Err(_) => Err(Failed),
    }
}
