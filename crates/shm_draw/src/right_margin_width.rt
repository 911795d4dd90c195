//! The room right of the last lifeline.
ghost use Rattle.std.specs.Prelude.{◌≡◌};
ghost use Rattle.std.specs.List.{list_any};
ghost use Rattle.shm_draw.specs.Svg;

use shm_model::{Event, Op, Request};

/// The width of the answers there. The reply to a segment call is longer than the answer to an access, and that to a `stat` is long.
pub(crate) fn room_of(events: &[Event]) -> u32
    ensures { result ≡ Svg.room_of events.now }
{
    if has_stat(events) {
        return 820;
    }
    if has_call(events) {
        return 360;
    }
    240
}

fn has_stat(events: &[Event]) -> bool
    ensures { result ≡ list_any Svg.asks_stat events.now }
{
    events.iter().any(|event| asks_stat(event))
}

fn has_call(events: &[Event]) -> bool
    ensures { result ≡ list_any Svg.is_call events.now }
{
    events.iter().any(|event| is_call(event))
}

fn is_call(event: &Event) -> bool
    ensures { result ≡ Svg.is_call event.now }
{
    match event {
        Event::Begin { .. } => true,
        _ => false,
    }
}

fn asks_stat(event: &Event) -> bool
    ensures { result ≡ Svg.asks_stat event.now }
{
    match event {
        Event::Begin { request, .. } => is_stat(request),
        _ => false,
    }
}

fn is_stat(request: &Request) -> bool
    ensures { result ≡ Svg.is_stat request.now }
{
    match request {
        Request::Op(Op::Stat { .. }) => true,
        _ => false,
    }
}
