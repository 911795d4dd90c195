//! A box takes an input: it logs the step that the site makes, or refuses.
ghost use Rattle.std.specs.Prelude.{◌≡◌, ◌<◌, None, Some, false, true, Ok, length, map, unwrap_or, vec_capacity, IfErr, IfOk, IsErr, IsOk, OnErr, OnOk};
ghost use Rattle.shm_logs.specs.Boxes.Box.{after, is_delivery, needs_memory, next_stamp, receipt, refusal};
ghost use Rattle.shm_logs.specs.Boxes.Logged.{stamp_of};
ghost use Rattle.shm_logs.specs.Boxes.Receipt.{receipt_of};
ghost use Rattle.shm_logs.specs.Boxes.SiteBox.{box_of};
ghost use Rattle.shm_logs.specs.Boxes.SiteLog.{HasRoom};
ghost use Rattle.shm_logs.specs.declared.site_boxes.box_error.BoxFault.TheVariants as fault;
ghost use Rattle.shm_site.specs.Step.{input_of, is_foreign, may_grow};

use crate::site_boxes::box_error::BoxFault;
use crate::site_boxes::copy_input::copy;
use crate::site_boxes::logged_step::Step;
use crate::site_boxes::receipt::Receipt;
use crate::site_boxes::sending_stamp::Stamp;
use crate::site_boxes::site_box::SiteBox;
use shm_site::{Input, Made};
use std::alloc::{AllocError, Allocator};

impl<A: Allocator + Copy> SiteBox<A> {
    /// Makes one step and logs it; the receipt tells it. `source` is the step that sent the envelope that is handed over, and `NONE` for
    /// any other input. Where the step isn't made the box is as before; the input is spent.
    ///
    /// Refusal for memory comes last. It never comes where the input is refused anyway. With room for one more step in the log, it never
    /// comes where the site's step needs no memory either: for an access that has the right, waits or is refused, for a segment call that
    /// is refused, and for a restart.
    pub fn take(&mut self, input: Input<A>, source: Stamp) -> Result<Receipt, BoxFault>
        ensures taken { IsOk result → refusal (box_of self.old) (input_of input) (stamp_of source) ≡ None }
        ensures step { OnOk result (box_of self.new ≡ after (box_of self.old) (input_of input) (stamp_of source)) }
        ensures told { IfOk result (λ told. receipt_of told ≡ receipt (box_of self.old) (input_of input)) }
        ensures fault { IfErr result (λ e. e ≡ unwrap_or (refusal (box_of self.old) (input_of input) (stamp_of source)) fault.OutOfMemory) }
        ensures last { IfErr result (λ e. e ≡ fault.OutOfMemory → refusal (box_of self.old) (input_of input) (stamp_of source) ≡ None) }
        ensures memory { IfErr result (λ e. e ≡ fault.OutOfMemory → HasRoom self.old.log → needs_memory (box_of self.old) (input_of input) ≡ true) }
        ensures refused { OnErr result (box_of self.new ≡ box_of self.old) }
    {
        match self.next_stamp(&input, source) {
            Ok(stamp) => in_memory(self.log_step(input, source, stamp)),
            Err(fault) => Err(fault),
        }
    }

    /// The stamp that the step would have.
    fn next_stamp(&self, input: &Input<A>, source: Stamp) -> Result<u64, BoxFault>
        ensures stamp { IfOk result (λ stamp. stamp ≡ next_stamp self.now.clock (stamp_of source)) }
        ensures taken { IsOk result → refusal (box_of self.now) (input_of input.now) (stamp_of source) ≡ None }
        ensures fault { IfErr result (λ e. refusal (box_of self.now) (input_of input.now) (stamp_of source) ≡ Some e) }
    {
        if self.is_foreign(input) {
            return Err(BoxFault::Foreign);
        }
        let latest = self.clock.max(source.at);
        if latest == u64::MAX {
            return Err(BoxFault::ClockEnd);
        }
        Ok(latest + 1)
    }

    fn is_foreign(&self, input: &Input<A>) -> bool
        ensures { result ≡ is_foreign self.now.log.sites self.now.log.me (input_of input.now) }
    {
        match input {
            Input::Deliver(envelope) => self.site.foreign(envelope),
            _ => false,
        }
    }

    /// Makes the step under this stamp, if there is memory.
    fn log_step(
        &mut self,
        input: Input<A>,
        source: Stamp,
        stamp: u64,
    ) -> Result<Receipt, AllocError>
        requires stamp { stamp ≡ next_stamp self.old.clock (stamp_of source) }
        requires taken { is_foreign self.old.log.sites self.old.log.me (input_of input) ≡ false }
        ensures memory { OnErr result (HasRoom self.old.log → needs_memory (box_of self.old) (input_of input) ≡ true) }
        ensures step { OnOk result (box_of self.new ≡ after (box_of self.old) (input_of input) (stamp_of source)) }
        ensures told { IfOk result (λ told. receipt_of told ≡ receipt (box_of self.old) (input_of input)) }
        ensures refused { OnErr result (box_of self.new ≡ box_of self.old) }
    {
        let copy = self.copy_for_log(&input)?;
        self.make_step(input, copy, source, stamp)
    }

    /// Makes room for one more step in the log, and copies the input.
    fn copy_for_log(&mut self, input: &Input<A>) -> Result<Input<A>, AllocError>
        ensures copy { IfOk result (λ copy. input_of copy ≡ input_of input.now) }
        ensures room { OnOk result (length self.new.log.steps.items < vec_capacity self.new.log.steps) }
        ensures memory { OnErr result (HasRoom self.old.log → is_delivery (input_of input.now) ≡ true) }
        ensures same { box_of self.new ≡ box_of self.old }
    {
        self.log.reserve()?;
        copy(input)
    }

    /// Makes the step. Nothing that memory could be refused to comes after it.
    fn make_step(
        &mut self,
        input: Input<A>,
        copy: Input<A>,
        source: Stamp,
        stamp: u64,
    ) -> Result<Receipt, AllocError>
        requires stamp { stamp ≡ next_stamp self.old.clock (stamp_of source) }
        requires taken { is_foreign self.old.log.sites self.old.log.me (input_of input) ≡ false }
        requires copy { input_of copy ≡ input_of input }
        requires room { length self.old.log.steps.items < vec_capacity self.old.log.steps }
        ensures memory { OnErr result (may_grow self.old.log.sites self.old.log.me (box_of self.old).site (input_of input) ≡ true) }
        ensures step { OnOk result (box_of self.new ≡ after (box_of self.old) (input_of input) (stamp_of source)) }
        ensures told { IfOk result (λ told. receipt_of told ≡ receipt (box_of self.old) (input_of input)) }
        ensures refused { OnErr result (box_of self.new ≡ box_of self.old) }
    {
        let Made { answer, sent } = self.site.step_spending(copy)?;
        let step = Step {
            input,
            stamp,
            source,
            answer,
            sent,
        };
        let receipt = Receipt::of(self.log.site(), self.log.len(), &step);
        self.log.push(step);
        self.clock = stamp;
        Ok(receipt)
    }
}

fn in_memory(logged: Result<Receipt, AllocError>) -> Result<Receipt, BoxFault>
    ensures ok { IfOk result (λ receipt. logged ≡ Ok receipt) }
    ensures err { IfErr result (λ e. IsErr logged × (e ≡ fault.OutOfMemory)) }
{
    match logged {
        Ok(receipt) => Ok(receipt),
        Err(_) => Err(BoxFault::OutOfMemory),
    }
}
