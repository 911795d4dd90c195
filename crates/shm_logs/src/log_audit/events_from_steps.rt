//! An order of steps as events of the world.
ghost use Rattle.std.specs.Prelude.{◌≡◌, ◌≤◌, IfOk, List};
ghost use Rattle.std.specs.List.{sum_by};
ghost use Rattle.shm_logs.specs.Boxes.Logged.{stamp_of};
ghost use Rattle.shm_logs.specs.Auditing.Logs.{logs_of};
ghost use Rattle.shm_logs.specs.Auditing.Numbering.{NumberFits, Numbers};
ghost use Rattle.shm_logs.specs.Auditing.Order.{order_of, AllName};
ghost use Rattle.shm_model.specs.Log.{sent_by, LogsMatch};
ghost use Rattle.shm_model.specs.Merge.{event_of, events_in, IsMerged, SiteStep};
ghost use Rattle.shm_model.specs.Basics.{max_sent};
ghost use Rattle.shm_site.specs.Step.{input_of};

use crate::log_audit::envelope_numbering::Numbering;
use crate::log_audit::step_id::StepName;
use crate::site_boxes::{Input, SiteLog, Step};
use shm_model::Event;
use shm_place::SiteId;
use std::alloc::{AllocError, Allocator};

/// The logged steps in this order as events: accesses, calls, ticks and restarts as they are, and a delivery as one that may be repeated,
/// of the envelope's number in this order. Takes memory for one event and one number a step.
pub fn events<A: Allocator + Copy>(
    alloc: A,
    logs: &[SiteLog<A>],
    order: &[StepName],
) -> Result<Vec<Event, A>, AllocError>
    requires merged { IsMerged (logs_of logs.now) (order_of (logs_of logs.now) order.now) }
    requires named { AllName (logs_of logs.now) order.now }
    requires matching { LogsMatch (logs_of logs.now) }
    requires few { sum_by sent_by (logs_of logs.now) ≤ max_sent }
    ensures { IfOk result (λ events. events.items ≡ events_in (order_of (logs_of logs.now) order.now)) }
{
    let numbering = Numbering::new(alloc, logs, order)?;
    let mut events = Vec::with_capacity(alloc, order.len())?;
    'names: for name in order {
        let event = event_of(&numbering, name.site, name.step(logs));
        events.push(event)?;
    }
    Ok(events)
}

fn event_of<A: Allocator + Copy>(numbering: &Numbering<A>, site: SiteId, step: &Step<A>) -> Event
    requires { NumberFits numbering.now (stamp_of step.now.source) (input_of step.now.input) }
    ensures { (order : List SiteStep) → Numbers order numbering.now
        → result ≡ event_of order site (stamp_of step.now.source) (input_of step.now.input) }
{
    match &step.input {
        Input::Load { at, offset } => Event::Load {
            site,
            at: *at,
            offset: *offset,
        },
        Input::Store { at, offset, byte } => Event::Store {
            site,
            at: *at,
            offset: *offset,
            byte: *byte,
        },
        Input::Begin(request) => Event::Begin {
            site,
            request: *request,
        },
        Input::Deliver(envelope) => {
            let number = numbering.sent_before(envelope.from, step.source.index);
            Event::Repeat(number + step.source.place as u64)
        }
        Input::Tick => Event::Tick { site },
        Input::Restart => Event::Restart { site },
    }
}
