ghost use Rattle.std.specs.Prelude.{◌≡◌, true, IfOk, OnErr};
ghost use Rattle.shm_site.specs.Step.{input_of};
ghost use Rattle.shm_logs.specs.Boxes.Box.{is_delivery};

use shm_site::Input;
use std::alloc::{AllocError, Allocator};

/// An equal input. Only a page's bytes may take memory.
pub(crate) fn copy<A: Allocator + Copy>(input: &Input<A>) -> Result<Input<A>, AllocError>
    ensures copy { IfOk result (λ copy. input_of copy ≡ input_of input.now) }
    ensures memory { OnErr result (is_delivery (input_of input.now) ≡ true) }
{
    match input {
        Input::Load { at, offset } => Ok(Input::Load {
            at: *at,
            offset: *offset,
        }),
        Input::Store { at, offset, byte } => Ok(Input::Store {
            at: *at,
            offset: *offset,
            byte: *byte,
        }),
        Input::Begin(request) => Ok(Input::Begin(*request)),
        Input::Deliver(envelope) => {
            let envelope = envelope.copy()?;
            Ok(Input::Deliver(envelope))
        }
        Input::Tick => Ok(Input::Tick),
        Input::Restart => Ok(Input::Restart),
    }
}
