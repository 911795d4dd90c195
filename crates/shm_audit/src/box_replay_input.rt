//! The input that a step brings to the box of its site.
ghost use Rattle.std.specs.Prelude.{◌≡◌, option_map};
ghost use Rattle.shm_site.specs.Step.{input_of};
ghost use Rattle.shm_process.specs.CauseOf.{cause_of};
ghost use Rattle.shm_wire.specs.Asks.{ask_of};
ghost use Rattle.shm_wire.specs.SentOf.{sent_of};
ghost use Rattle.shm_wire.specs.UnmapOf.{unmap_in};
ghost use Rattle.shm_audit.specs.Entered as spec;
ghost use Rattle.shm_audit.specs.HandedOf.{handed_of};

use shm_logs::{Input, Stamp};
use shm_place::SiteId;
use shm_process::{Cause, input_asked, input_unmapped};
use shm_wire::{Ask, Line, Sent, UnmapAsk};
use std::alloc::{Allocator, Global};

/// An input, and where it was sent.
#[derive(Drop)]
pub(crate) struct Handed<A: Allocator + Copy = Global> {
    pub(crate) input: Input<A>,
    pub(crate) source: Stamp,
}

/// The input that the cause of a step brings to this site.
pub(crate) fn handed_input<A: Allocator + Copy>(me: SiteId, cause: Cause<A>) -> Option<Handed<A>>
    ensures { option_map handed_of result ≡ spec.handed me (cause_of cause) }
{
    match cause {
        Cause::Line(Line::Envelope(sent)) => Some(delivered_input(sent)),
        Cause::Line(Line::Ask(ask)) => asked_input(me, ask),
        Cause::Line(Line::Write(_)) => None,
        Cause::Line(Line::Unmap(unmap)) => unmapped_input(me, &unmap),
        Cause::Restart => Some(unsent_input(Input::Restart)),
    }
}

fn delivered_input<A: Allocator + Copy>(sent: Sent<A>) -> Handed<A>
    ensures { handed_of result ≡ spec.delivered (sent_of sent) }
{
    let Sent { source, envelope } = sent;
    Handed {
        input: Input::Deliver(envelope),
        source: Stamp {
            at: source.clock,
            index: source.index as usize,
            place: source.place as usize,
        },
    }
}

/// The input that a caller's ask brings to this site.
fn asked_input<A: Allocator + Copy>(me: SiteId, ask: Ask) -> Option<Handed<A>>
    ensures { option_map handed_of result ≡ spec.asked_here me (ask_of ask) }
{
    if ask.site != me {
        return None;
    }
    let input = input_asked(ask.asked)?;
    Some(unsent_input(input))
}

/// The input with which this site gave a page up.
fn unmapped_input<A: Allocator + Copy>(me: SiteId, unmap: &UnmapAsk<A>) -> Option<Handed<A>>
    ensures { option_map handed_of result ≡ spec.unmapped_here me (unmap_in unmap.now) }
{
    if unmap.site != me {
        return None;
    }
    let input = input_unmapped(unmap)?;
    Some(unsent_input(input))
}

/// An input that is no envelope.
fn unsent_input<A: Allocator + Copy>(input: Input<A>) -> Handed<A>
    ensures { handed_of result ≡ spec.unsent (input_of input) }
{
    Handed {
        input,
        source: Stamp::NONE,
    }
}
