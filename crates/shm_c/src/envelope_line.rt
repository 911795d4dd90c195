//! Envelopes as lines of text, one spelling for each.
ghost use Rattle.std.specs.Prelude.{◌≡◌, option_map, string_bytes, IfOk, IfSome};
ghost use Rattle.shm_parts.specs.Message.{envelope_of};
ghost use Rattle.shm_site.specs.Step.{envelope_if};
ghost use Rattle.shm_wire.specs.Line.{read_line};
ghost use Rattle.shm_wire.specs.LineOf.{line_of};
ghost use Rattle.shm_c.specs.Seat.{line_from};
ghost use Rattle.shm_c.specs.SiteSteps.{envelope_in};

use shm_parts::Envelope;
use shm_wire::{Line, SentLine, Source, parse_line};
use std::alloc::{AllocError, Global};

/// The envelope that the line spells, if it spells one. Where it was sent is passed over.
pub(crate) fn read_envelope(alloc: Global, line: &[u8]) -> Result<Option<Envelope>, AllocError>
    ensures { IfOk result (λ read. envelope_if read ≡ envelope_in (read_line line.now)) }
{
    let read = parse_line(alloc, line)?;
    Ok(envelope_of_line(read))
}

/// The envelope in a line that was read.
fn envelope_of_line(read: Option<Line>) -> Option<Envelope>
    ensures { envelope_if result ≡ envelope_in (option_map line_of read) }
{
    match read {
        Some(Line::Envelope(sent)) => Some(sent.envelope),
        _ => None,
    }
}

/// The line of an envelope that stands at this place among those that a step sent. None: memory was refused.
pub(crate) fn spell_envelope(alloc: Global, place: usize, envelope: &Envelope) -> Option<String>
    ensures { IfSome result (λ text. string_bytes text ≡ line_from place (envelope_of envelope.now)) }
{
    let source = Source {
        clock: 0,
        index: 0,
        place: place as u64,
    };
    let sent = SentLine { source, envelope };
    format!(in alloc; "{sent}").ok()
}
