//! Steps are recorded and told: each by an entry of its own, in a row of accesses, or by the entry of an unmap.
ghost use Rattle.std.specs.Prelude.{◌≡◌, ◌++◌, ◌∷◌, [], codes, false, true, length, option_and_then, string_bytes, IfOk, OnOk, None, Some};
ghost use Rattle.std.specs.Fmt.{decimal};
ghost use Rattle.shm_process.specs.Cause.{Cause, OfRestart, cause_text};
ghost use Rattle.shm_process.specs.Counts.{was_received};
ghost use Rattle.shm_process.specs.Desk.{closed, in_row, step_text, with_again, with_record, with_step, with_told};
ghost use Rattle.shm_process.specs.DeskOf.{desk_of};
ghost use Rattle.shm_process.specs.NodeOf.{again_of, said_of};
ghost use Rattle.shm_process.specs.Rows.{joined, row_of};
ghost use Rattle.shm_seal.specs.SealOf.{seal_of};
ghost use Rattle.shm_wire.specs.TagOf.{tag_text};

use crate::access_row::Row;
use crate::desk::Desk;
use crate::envelope_lines::push_sealed;
use crate::retried_step::Again;
use crate::step_output::Said;
use itoa::Buffer;
use shm_model::Asked;
use shm_seal::Seal;
use shm_wire::Tag;
use std::alloc::{AllocError, Allocator};

impl<A: Allocator + Copy> Desk<A> {
    /// Has this text recorded, behind what is.
    pub fn record(&mut self, text: &[u8]) -> Result<(), AllocError>
        ensures { OnOk result (desk_of self.new ≡ with_record text.now (desk_of self.old)) }
    {
        self.recorded.extend_from_slice(text)?;
        self.counts = self.counts.with_recorded(text.len());
        Ok(())
    }

    /// Records the step that this line made, an envelope's or another, counts it, and gathers its output.
    pub(crate) fn push_step(
        &mut self,
        line: &[u8],
        said: &Said<A>,
        received: bool,
    ) -> Result<(), AllocError>
        ensures { (cause : Cause) → cause_text cause ≡ line.now → was_received cause ≡ received
            → OnOk result (desk_of self.new ≡ with_step (desk_of self.old) (Some (said_of cause said.now))) }
    {
        let bytes = push_entry(&mut self.recorded, said.clock, line)?;
        push_text(self.alloc, &self.seal, &mut self.told, said)?;
        let counts = self.counts.with_step(received, count_sent(said));
        self.counts = counts.with_recorded(bytes);
        Ok(())
    }

    /// Records an entry with this clock and line. The steps that it is for are told of apart.
    pub(crate) fn push_record(&mut self, clock: u64, line: &[u8]) -> Result<(), AllocError>
        ensures { OnOk result (desk_of self.new
            ≡ with_record ((codes "step " ++ (decimal clock ++ 32 ∷ line.now)) ++ 10 ∷ []) (desk_of self.old)) }
    {
        let bytes = push_entry(&mut self.recorded, clock, line)?;
        self.counts = self.counts.with_recorded(bytes);
        Ok(())
    }

    /// Gathers the output of a step that no envelope made, and counts it.
    pub(crate) fn push_told(&mut self, said: &Said<A>) -> Result<(), AllocError>
        ensures { (cause : Cause) → was_received cause ≡ false → OnOk result (desk_of self.new ≡ with_told (desk_of self.old) (said_of cause said.now)) }
    {
        push_text(self.alloc, &self.seal, &mut self.told, said)?;
        self.counts = self.counts.with_step(false, count_sent(said));
        Ok(())
    }

    /// Records a step of an ask that waited in a row, and gathers its output.
    pub(crate) fn push_again(&mut self, again: &Again<A>) -> Result<(), AllocError>
        ensures { OnOk result (desk_of self.new ≡ with_again (desk_of self.old) (Some (again_of again.now))) }
    {
        self.push_told(&again.said)?;
        self.join_row(again.said.clock, again.tag, again.asked)
    }

    /// The access joins the row, or begins another.
    fn join_row(&mut self, clock: u64, tag: Tag, asked: Asked) -> Result<(), AllocError>
        ensures { OnOk result (desk_of self.new ≡ in_row (desk_of self.old) (row_of clock (tag_text tag) asked)) }
    {
        if self.grow_row(clock, &tag, asked)? {
            return Ok(());
        }
        self.close_row()?;
        self.begin_row(clock, tag, asked)
    }

    /// The access joins the row, if it goes on with it. Answers whether it does.
    fn grow_row(&mut self, clock: u64, tag: &Tag, asked: Asked) -> Result<bool, AllocError>
        ensures grown { IfOk result (λ grown. grown ≡ true → desk_of self.new ≡ in_row (desk_of self.old) (row_of clock (tag_text tag.now) asked)) }
        ensures other { IfOk result (λ grown. grown ≡ false → (desk_of self.new ≡ desk_of self.old)
            × (option_and_then (λ row. joined row (row_of clock (tag_text tag.now) asked)) (desk_of self.old).row ≡ None)) }
    {
        match &mut self.row {
            Some(row) => row.take(clock, tag, asked),
            None => Ok(false),
        }
    }

    /// A row begins with the access.
    fn begin_row(&mut self, clock: u64, tag: Tag, asked: Asked) -> Result<(), AllocError>
        ensures { OnOk result (desk_of self.new ≡ record (desk_of self.old) { row = Some (row_of clock (tag_text tag) asked) }) }
    {
        let row = Row::of(self.alloc, clock, tag, asked)?;
        self.row = Some(row);
        Ok(())
    }

    /// Records the row, if there is one.
    pub(crate) fn close_row(&mut self) -> Result<(), AllocError>
        ensures { OnOk result (desk_of self.new ≡ closed (desk_of self.old)) }
    {
        let Some(row) = self.row.take() else {
            return Ok(());
        };
        let clock = row.clock;
        let line = row.line(self.alloc, self.node.me)?;
        self.push_record(clock, line.as_bytes())
    }
}

/// How many envelopes a step sent.
#[tactic(auto, using(crate::proofs::Asks::length_map))]
fn count_sent<A: Allocator + Copy>(said: &Said<A>) -> usize
    ensures { result ≡ length (said_of OfRestart said.now).sent }
{
    said.sent.len()
}

/// Appends the entry of a step: `step CLOCK LINE`, and a line feed. How many bytes it has.
fn push_entry<A: Allocator + Copy>(
    recorded: &mut Vec<u8, A>,
    clock: u64,
    line: &[u8],
) -> Result<usize, AllocError>
    ensures entry { OnOk result (recorded.new.items ≡ recorded.old.items ++ ((codes "step " ++ (decimal clock ++ 32 ∷ line.now)) ++ 10 ∷ [])) }
    ensures bytes { IfOk result (λ bytes. bytes ≡ length ((codes "step " ++ (decimal clock ++ 32 ∷ line.now)) ++ 10 ∷ [])) }
{
    let before = recorded.len();
    let mut buffer = Buffer::new();
    recorded.extend_from_slice("step ".as_bytes())?;
    recorded.extend_from_slice(buffer.format(clock).as_bytes())?;
    recorded.push(b' ')?;
    recorded.extend_from_slice(line)?;
    recorded.push(b'\n')?;
    Ok(recorded.len() - before)
}

/// Appends the output of a step, sealed: the answer, if it has a caller, and what the site sent.
#[tactic(auto, unfolding(crate::specs::Desk::step_text))]
fn push_text<A: Allocator + Copy>(
    alloc: A,
    seal: &Seal,
    told: &mut String<A>,
    said: &Said<A>,
) -> Result<(), AllocError>
    ensures { OnOk result (string_bytes told.new ≡ string_bytes told.old ++ step_text (seal_of seal.now) (Some (said_of OfRestart said.now))) }
{
    if said.tag.is_none() && said.sent.is_empty() {
        return Ok(());
    }
    if let Some(line) = said.answer_line(alloc)? {
        push_sealed(alloc, seal, told, line.as_str())?;
    }
    let sent = said.envelopes(alloc, seal)?;
    told.push_str(sent.as_str())
}
