//! The lines that carry what a step sent, sealed.
ghost use Rattle.std.specs.Prelude.{◌≡◌, ◌++◌, [], ◌∷◌, map, string_bytes, IfOk, OnOk};
ghost use Rattle.shm_process.specs.Lines.{envelope_lines};
ghost use Rattle.shm_parts.specs.Message.{envelope_of};
ghost use Rattle.shm_seal.specs.Seal.{sealed};
ghost use Rattle.shm_seal.specs.SealOf.{seal_of};
ghost use Rattle.shm_wire.specs.Sent.{envelope_line};
ghost use Rattle.shm_wire.specs.SentOf.{source_of};

use crate::step_output::Said;
use shm_parts::Envelope;
use shm_seal::Seal;
use shm_wire::{SentLine, Source};
use std::alloc::{AllocError, Allocator};

impl<A: Allocator + Copy> Said<A> {
    /// A sealed line for each envelope that the step sent, in their order: with the step's clock and index, and the envelope's place.
    pub fn envelopes(&self, alloc: A, seal: &Seal) -> Result<String<A>, AllocError>
        ensures { IfOk result (λ text. string_bytes text ≡ envelope_lines (seal_of seal.now) self.now.clock self.now.index 0 (map envelope_of self.now.sent.items)) }
    {
        let mut text = String::new(alloc);
        'sent: for (place, envelope) in self.sent.iter().enumerate() {
            let source = Source {
                clock: self.clock,
                index: self.index,
                place: place as u64,
            };
            push_envelope(alloc, seal, &mut text, source, envelope)?;
        }
        Ok(text)
    }
}

/// Appends an envelope's line, sealed, and a line feed.
fn push_envelope<A: Allocator + Copy>(
    alloc: A,
    seal: &Seal,
    text: &mut String<A>,
    source: Source,
    envelope: &Envelope<A>,
) -> Result<(), AllocError>
    ensures { OnOk result (string_bytes text.new ≡ string_bytes text.old
        ++ (sealed (seal_of seal.now) (envelope_line (record { source = source_of source; envelope = envelope_of envelope.now })) ++ 10 ∷ [])) }
{
    let sent = SentLine { source, envelope };
    let line = format!(in alloc; "{sent}")?;
    push_sealed(alloc, seal, text, line.as_str())
}

/// Appends a line, sealed, and a line feed.
#[tactic(auto, unfolding(shm_seal::specs::Seal::sealed))]
pub(crate) fn push_sealed<A: Allocator + Copy>(
    alloc: A,
    seal: &Seal,
    text: &mut String<A>,
    line: &str,
) -> Result<(), AllocError>
    ensures { OnOk result (string_bytes text.new ≡ string_bytes text.old ++ (sealed (seal_of seal.now) line.now ++ 10 ∷ [])) }
{
    text.push_str(line)?;
    seal.push_tail(alloc, text, line.as_bytes())?;
    text.push_str("\n")
}
