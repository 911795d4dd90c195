use std::io::{Read, Write};

/// Reading, appending, making durable or writing failed.
#[derive(Clone, Copy, Debug)]
pub struct Failed;

/// A journal, through which a process reads, keeps and writes, so that all it does is in one order.
///
/// A crash leaves a front of what was appended and not yet made durable; what is durable it leaves whole.
pub trait Journal {
    ghost use Rattle.std.specs.Prelude.{◌≡◌, ◌≤◌, ◌<◌, [], ◌∷◌, ℕ, Bool, List, Option, IfOk, OnErr, OnOk, length, take};
    ghost use Rattle.std.specs.Io.KnownBytes.{Appends, Consumes, IsAtEnd, Keeps};
    ghost use Rattle.shm_journal.specs.Acts.{Act, Append, GoesOn, Read as ReadAct, Sync, Tell};

    /// The acts done through it, if they are known.
    ghost acts: { Self → Option (List Act) };

    /// Whether it is so long that it is to be made shorter.
    ghost due: { Self → Bool };

    /// Checks that it is so long that it is to be made shorter, once its site is at rest.
    fn is_due(&self) -> bool
        ensures { result ≡ due self.now };

    /// Reads once, into the front of a chunk; 0 means that no bytes are left, where the chunk has room.
    fn read<R: Read>(&mut self, reader: &mut R, chunk: &mut [u8]) -> Result<usize, Failed>
        ensures room { IfOk result (λ count. count ≤ length chunk.new) }
        ensures same { length chunk.new ≡ length chunk.old }
        ensures read { IfOk result (λ count. Consumes (R.remaining reader.old) (R.remaining reader.new) (take count chunk.new)) }
        ensures act { IfOk result (λ count. GoesOn (acts self.old) (acts self.new) (ReadAct (take count chunk.new) ∷ [])) }
        ensures end { 0 < length chunk.old → IfOk result (λ count. count ≡ 0 → IsAtEnd (R.remaining reader.new)) }
        ensures unread { OnErr result (Keeps (R.remaining reader.old) (R.remaining reader.new)) }
        ensures none { OnErr result (GoesOn (acts self.old) (acts self.new) []) };

    /// Appends the text. At an error a front of it may have been.
    fn append(&mut self, text: &[u8]) -> Result<(), Failed>
        ensures all { OnOk result (GoesOn (acts self.old) (acts self.new) (Append text.now ∷ [])) }
        ensures front { OnErr result ((n : ℕ) × GoesOn (acts self.old) (acts self.new) (Append (take n text.now) ∷ [])) };

    /// Makes durable what was appended: no crash loses it from then on.
    fn sync(&mut self) -> Result<(), Failed>
        ensures all { OnOk result (GoesOn (acts self.old) (acts self.new) (Sync ∷ [])) }
        ensures none { OnErr result (GoesOn (acts self.old) (acts self.new) []) };

    /// Writes the text, and flushes the writer. At an error a front of it may have been written.
    fn tell<W: Write>(&mut self, writer: &mut W, text: &[u8]) -> Result<(), Failed>
        ensures told { OnOk result (Appends (W.contents writer.old) (W.contents writer.new) text.now) }
        ensures all { OnOk result (GoesOn (acts self.old) (acts self.new) (Tell text.now ∷ [])) }
        ensures front { OnErr result ((n : ℕ) × Appends (W.contents writer.old) (W.contents writer.new) (take n text.now)
            × GoesOn (acts self.old) (acts self.new) (Tell (take n text.now) ∷ [])) };
}
