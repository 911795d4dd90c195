//! Envelopes that a site can't have been sent.
ghost use Rattle.std.specs.Prelude.{◌≡◌};
ghost use Rattle.shm_model.specs.Step.{foreign, id_in_limits, is_proper, is_to_manager};
ghost use Rattle.shm_parts.specs.Message.{envelope_of, message_of, note_of};

use crate::home_of_segment_call::op_home;
use shm_parts::{Envelope, Message, Note};
use shm_place::{
    PageId, SEGMENTS_OF_A_HOME, SegId, SiteId, Sites, home_of_id, in_limits, manager_of,
};
use std::alloc::Allocator;

/// The envelope is for another site, or from none, or with a message that can't be for this one.
pub(crate) fn is_foreign<A: Allocator + Copy>(
    sites: Sites,
    me: SiteId,
    envelope: &Envelope<A>,
) -> bool
    ensures { result ≡ foreign sites me (envelope_of envelope.now) }
{
    if envelope.to != me {
        return true;
    }
    is_improper(sites, me, envelope)
}

/// The envelope, which names this site, is from none, or with a message that can't be for this one.
pub(crate) fn is_improper<A: Allocator + Copy>(
    sites: Sites,
    me: SiteId,
    envelope: &Envelope<A>,
) -> bool
    requires { envelope.now.to ≡ me }
    ensures { result ≡ foreign sites me (envelope_of envelope.now) }
{
    !(envelope.from.0 < sites.count() && is_proper(sites, me, envelope.from, &envelope.message))
}

fn is_proper<A: Allocator + Copy>(
    sites: Sites,
    me: SiteId,
    from: SiteId,
    message: &Message<A>,
) -> bool
    ensures { result ≡ is_proper sites me from (message_of message.now) }
{
    match message {
        Message::Of { page, note } => {
            in_limits(sites, *page) && (!is_to_manager(note) || manager_of(sites, *page) == me)
        }
        Message::Call { op, .. } => op_home(sites, from, op) == me,
        Message::Reply { .. } => true,
        Message::Purge { id } => is_identifier(sites, *id) && from == home_of_id(sites, *id),
        Message::Purged { id } => is_identifier(sites, *id) && me == home_of_id(sites, *id),
    }
}

/// Only the page's manager is sent such a note.
fn is_to_manager<A: Allocator + Copy>(note: &Note<A>) -> bool
    ensures { result ≡ is_to_manager (note_of note.now) }
{
    matches!(note, Note::ToBook(_))
}

/// Some home could give the identifier.
fn is_identifier(sites: Sites, id: SegId) -> bool
    ensures { result ≡ id_in_limits sites id }
{
    id.0 < SEGMENTS_OF_A_HOME * sites.count()
}
