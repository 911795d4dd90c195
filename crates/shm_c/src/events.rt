//! A world's events.
ghost use Rattle.std.specs.Prelude.{◌≡◌, IfNone, IfSome};
ghost use Rattle.shm_model.specs.declared.event.Event.TheVariants as event;
ghost use Rattle.shm_c.specs.Calls.{call_request};
ghost use Rattle.shm_c.specs.Numbers.{kind_alone};
ghost use Rattle.shm_c.specs.Played.{Handed, Played};

use crate::numbers::{AnswerNumbers, CallNumbers, ReplyNumbers};
use crate::segment_calls::call_request;
use crate::spell_answer::{kind_alone, outcome_numbers, outcome_reply};
use crate::world_handle::WorldHandle;
use shm_model::Event;
use shm_place::SiteId;
use std::alloc::Global;

/// The site loads a byte.
#[unsafe(no_mangle)]
pub extern "C" fn leddwyfan_world_load(
    alloc: Global,
    world: &mut WorldHandle,
    site: u32,
    at: u32,
    offset: u32,
) -> AnswerNumbers
    ensures { Played world.old.world world.new.world (event.Load site at offset) result }
{
    let outcome = world.step(
        alloc,
        Event::Load {
            site: SiteId(site),
            at,
            offset,
        },
    );
    outcome_numbers(&outcome)
}

/// The site stores a byte.
#[unsafe(no_mangle)]
pub extern "C" fn leddwyfan_world_store(
    alloc: Global,
    world: &mut WorldHandle,
    site: u32,
    at: u32,
    offset: u32,
    byte: u8,
) -> AnswerNumbers
    ensures { Played world.old.world world.new.world (event.Store site at offset byte) result }
{
    let outcome = world.step(
        alloc,
        Event::Store {
            site: SiteId(site),
            at,
            offset,
            byte,
        },
    );
    outcome_numbers(&outcome)
}

/// The site begins a segment call. Where no call has these numbers nothing changes.
#[unsafe(no_mangle)]
pub extern "C" fn leddwyfan_world_begin(
    alloc: Global,
    world: &mut WorldHandle,
    site: u32,
    call: &CallNumbers,
) -> AnswerNumbers
    ensures begun { IfSome (call_request call.now) (λ request. Played world.old.world world.new.world (event.Begin site request) result) }
    ensures none { IfNone (call_request call.now) ((world.new.world ≡ world.old.world) × (result ≡ kind_alone 12)) }
{
    let Some(request) = call_request(call) else {
        return kind_alone(12);
    };
    let outcome = world.step(
        alloc,
        Event::Begin {
            site: SiteId(site),
            request,
        },
    );
    outcome_numbers(&outcome)
}

/// The site sends again what wasn't answered.
#[unsafe(no_mangle)]
pub extern "C" fn leddwyfan_world_tick(
    alloc: Global,
    world: &mut WorldHandle,
    site: u32,
) -> AnswerNumbers
    ensures { Played world.old.world world.new.world (event.Tick site) result }
{
    let outcome = world.step(alloc, Event::Tick { site: SiteId(site) });
    outcome_numbers(&outcome)
}

/// The site starts again.
#[unsafe(no_mangle)]
pub extern "C" fn leddwyfan_world_restart(
    alloc: Global,
    world: &mut WorldHandle,
    site: u32,
) -> AnswerNumbers
    ensures { Played world.old.world world.new.world (event.Restart site) result }
{
    let outcome = world.step(alloc, Event::Restart { site: SiteId(site) });
    outcome_numbers(&outcome)
}

/// Hands the envelope over; it is gone then. `reply` is that of a segment call that ended.
#[unsafe(no_mangle)]
pub extern "C" fn leddwyfan_world_deliver(
    alloc: Global,
    world: &mut WorldHandle,
    number: u64,
    reply: &mut ReplyNumbers,
) -> AnswerNumbers
    ensures { Handed world.old.world world.new.world (event.Deliver number) result reply.new }
{
    let outcome = world.step(alloc, Event::Deliver(number));
    let numbers = outcome_numbers(&outcome);
    *reply = outcome_reply(&outcome);
    numbers
}

/// Hands the envelope over, and it may be handed over again. `reply` is that of a segment call that ended.
#[unsafe(no_mangle)]
pub extern "C" fn leddwyfan_world_repeat(
    alloc: Global,
    world: &mut WorldHandle,
    number: u64,
    reply: &mut ReplyNumbers,
) -> AnswerNumbers
    ensures { Handed world.old.world world.new.world (event.Repeat number) result reply.new }
{
    let outcome = world.step(alloc, Event::Repeat(number));
    let numbers = outcome_numbers(&outcome);
    *reply = outcome_reply(&outcome);
    numbers
}

/// The network loses the envelope.
#[unsafe(no_mangle)]
pub extern "C" fn leddwyfan_world_lose(
    alloc: Global,
    world: &mut WorldHandle,
    number: u64,
) -> AnswerNumbers
    ensures { Played world.old.world world.new.world (event.Lose number) result }
{
    let outcome = world.step(alloc, Event::Lose(number));
    outcome_numbers(&outcome)
}
