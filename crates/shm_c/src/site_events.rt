//! A site's inputs.
ghost use Rattle.std.specs.Prelude.{◌≡◌, IfNone, IfSome};
ghost use Rattle.shm_model.specs.Message as input;
ghost use Rattle.shm_c.specs.Calls.{call_request};
ghost use Rattle.shm_c.specs.Numbers.{kind_alone};
ghost use Rattle.shm_c.specs.Seat.{seat_in};
ghost use Rattle.shm_c.specs.SiteSteps.{Answered, Delivered, Handed, Stepped};

use crate::numbers::{AnswerNumbers, CallNumbers, ReplyNumbers};
use crate::segment_calls::call_request;
use crate::site_handle::SiteHandle;
use crate::site_outcome::{site_outcome_numbers, site_outcome_reply};
use crate::spell_answer::kind_alone;
use shm_site::Input;
use std::alloc::Global;

/// The site loads a byte.
#[unsafe(no_mangle)]
pub extern "C" fn leddwyfan_site_load(
    alloc: Global,
    site: &mut SiteHandle,
    at: u32,
    offset: u32,
) -> AnswerNumbers
    ensures { Answered (Stepped (input.Load at offset)) (seat_in site.old.site) (seat_in site.new.site) result }
{
    let outcome = site.step(alloc, Input::Load { at, offset });
    site_outcome_numbers(&outcome)
}

/// The site stores a byte.
#[unsafe(no_mangle)]
pub extern "C" fn leddwyfan_site_store(
    alloc: Global,
    site: &mut SiteHandle,
    at: u32,
    offset: u32,
    byte: u8,
) -> AnswerNumbers
    ensures { Answered (Stepped (input.Store at offset byte)) (seat_in site.old.site) (seat_in site.new.site) result }
{
    let outcome = site.step(alloc, Input::Store { at, offset, byte });
    site_outcome_numbers(&outcome)
}

/// The site begins a segment call. Where no call has these numbers nothing changes.
#[unsafe(no_mangle)]
pub extern "C" fn leddwyfan_site_begin(
    alloc: Global,
    site: &mut SiteHandle,
    call: &CallNumbers,
) -> AnswerNumbers
    ensures begun { IfSome (call_request call.now) (λ request. Answered (Stepped (input.Begin request)) (seat_in site.old.site) (seat_in site.new.site) result) }
    ensures none { IfNone (call_request call.now) ((site.new.site ≡ site.old.site) × (result ≡ kind_alone 12)) }
{
    let Some(request) = call_request(call) else {
        return kind_alone(12);
    };
    let outcome = site.step(alloc, Input::Begin(request));
    site_outcome_numbers(&outcome)
}

/// The site sends again what wasn't answered.
#[unsafe(no_mangle)]
pub extern "C" fn leddwyfan_site_tick(alloc: Global, site: &mut SiteHandle) -> AnswerNumbers
    ensures { Answered (Stepped input.Tick) (seat_in site.old.site) (seat_in site.new.site) result }
{
    let outcome = site.step(alloc, Input::Tick);
    site_outcome_numbers(&outcome)
}

/// The site starts again.
#[unsafe(no_mangle)]
pub extern "C" fn leddwyfan_site_restart(alloc: Global, site: &mut SiteHandle) -> AnswerNumbers
    ensures { Answered (Stepped input.Restart) (seat_in site.old.site) (seat_in site.new.site) result }
{
    let outcome = site.step(alloc, Input::Restart);
    site_outcome_numbers(&outcome)
}

/// Hands over the envelope that the line spells. `reply` is that of a segment call that ended.
#[unsafe(no_mangle)]
pub extern "C" fn leddwyfan_site_deliver(
    alloc: Global,
    site: &mut SiteHandle,
    line: &[u8],
    reply: &mut ReplyNumbers,
) -> AnswerNumbers
    ensures { Handed (Delivered line.now) (seat_in site.old.site) (seat_in site.new.site) result reply.new }
{
    let outcome = site.deliver(alloc, line);
    *reply = site_outcome_reply(&outcome);
    site_outcome_numbers(&outcome)
}
