//! The meaning of a line to a node: an envelope for its site, a caller's ask, or nothing.
ghost use Rattle.std.specs.Prelude.{◌≡◌, ◌<◌, ℕ, List, false, max, IfOk, IfSome, Some, option_map};
ghost use Rattle.shm_model.specs.Basics.{greatest};
ghost use Rattle.shm_model.specs.Step.{foreign};
ghost use Rattle.shm_parts.specs.Message.{envelope_of};
ghost use Rattle.shm_process.specs.Mapped.{page_at};
ghost use Rattle.shm_process.specs.Mapped as mapped;
ghost use Rattle.shm_process.specs.Node as spec;
ghost use Rattle.shm_process.specs.NodeOf.{access_under, heard_of, node_of};
ghost use Rattle.shm_process.specs.Remaps as remaps;
ghost use Rattle.shm_site.specs.Step.{input_of, is_foreign};
ghost use Rattle.shm_wire.specs.Asks.{ask_of};
ghost use Rattle.shm_wire.specs.LineOf.{line_of};
ghost use Rattle.shm_wire.specs.SentOf.{sent_of};
ghost use Rattle.shm_wire.specs.UnmapOf.{unmap_in};

use crate::byte_place::byte_place;
use crate::check_message_numbers::numbers_fit;
use crate::interpreted_line::Heard;
use crate::mapping_list::{lowered, remapped};
use crate::node::Node;
use shm_model::{Asked, Kind};
use shm_site::Input;
use shm_wire::{Ask, Line, Mapping, Question, Sent, UnmapAsk};
use std::alloc::{AllocError, Allocator};

/// The most by which an envelope's clock may be above its receiver's. So one line raises the clock no further, and bringing it to its end
/// takes some 2^32 lines.
const MOST_AHEAD: u64 = 1 << 32;

impl<A: Allocator + Copy> Node<A> {
    /// The input that the line brings to the site, if it is for this site. A block that is to be stored brings none yet.
    pub(crate) fn hear(&self, line: Line<A>) -> Result<Option<Heard<A>>, AllocError>
        ensures heard { IfOk result (λ heard. option_map heard_of heard ≡ spec.heard (node_of self.now) (line_of line)) }
        ensures proper { IfOk result (λ heard. IfSome heard (λ h. is_foreign self.now.sites self.now.me (input_of h.input) ≡ false)) }
        ensures early { IfOk result (λ heard. IfSome heard (λ h. max self.now.clock h.source < greatest)) }
    {
        match line {
            Line::Envelope(sent) => Ok(self.hear_envelope(sent)),
            Line::Ask(ask) => self.hear_ask(&ask),
            Line::Write(_) => Ok(None),
            Line::Unmap(unmap) => self.hear_unmap(&unmap),
        }
    }

    /// The input that an envelope brings to the site, unless it can't be for this site, or no site that keeps up can have sent it.
    pub(crate) fn hear_envelope(&self, sent: Sent<A>) -> Option<Heard<A>>
        ensures heard { option_map heard_of result ≡ spec.handed (node_of self.now) (sent_of sent) }
        ensures proper { IfSome result (λ h. is_foreign self.now.sites self.now.me (input_of h.input) ≡ false) }
        ensures early { IfSome result (λ h. max self.now.clock h.source < greatest) }
    {
        if self.is_lost(&sent) {
            return None;
        }
        let Sent { source, envelope } = sent;
        Some(Heard {
            input: Input::Deliver(envelope),
            source: source.clock,
            tag: None,
            waits: None,
            mapped: None,
        })
    }

    /// The envelope can't be for this site, or no site that keeps up can have sent it.
    pub(crate) fn is_lost(&self, sent: &Sent<A>) -> bool
        ensures lost { result ≡ spec.is_lost (node_of self.now) (sent_of sent.now) }
        ensures proper { result ≡ false → foreign self.now.sites self.now.me (envelope_of sent.now.envelope) ≡ false }
        ensures early { result ≡ false → max self.now.clock sent.now.source.clock < greatest }
    {
        self.site.foreign(&sent.envelope) || self.is_late(sent.source.clock) || self.is_beyond(sent)
    }

    /// The input that a caller's ask brings to this site.
    pub(crate) fn hear_ask(&self, ask: &Ask) -> Result<Option<Heard<A>>, AllocError>
        ensures heard { IfOk result (λ heard. option_map heard_of heard ≡ spec.asked_here (node_of self.now) (ask_of ask.now)) }
        ensures proper { IfOk result (λ heard. IfSome heard (λ h. is_foreign self.now.sites self.now.me (input_of h.input) ≡ false)) }
        ensures early { IfOk result (λ heard. IfSome heard (λ h. max self.now.clock h.source < greatest)) }
    {
        if ask.site != self.me || self.is_late(0) {
            return Ok(None);
        }
        let waits = waits_for_right(ask.asked);
        let Some(input) = input_asked(ask.asked) else {
            return Ok(None);
        };
        let mapped = self.remapped_by(ask.asked)?;
        Ok(Some(Heard {
            input,
            source: 0,
            tag: Some(ask.tag),
            waits,
            mapped,
        }))
    }

    /// What is mapped after a step that is asked for, where that changes: a page whose right is there.
    fn remapped_by(&self, asked: Question) -> Result<Option<Vec<Mapping, A>>, AllocError>
        ensures { IfOk result (λ mapped. option_map (λ m. m.items) mapped ≡ spec.remapped_by (node_of self.now) asked) }
    {
        match asked {
            Question::Map { at, index, kind } => {
                let has = self.has_right(at, index, kind);
                self.mapped_if(has, at, index, kind)
            }
            Question::Access(_) | Question::Try(_) | Question::Read { .. } => Ok(None),
            Question::Begin(_) | Question::Tick | Question::Show(_) => Ok(None),
            Question::Health | Question::Mappings => Ok(None),
        }
    }

    /// What is mapped with the page.
    fn mapped_if(
        &self,
        has: bool,
        at: u32,
        index: u32,
        kind: Kind,
    ) -> Result<Option<Vec<Mapping, A>>, AllocError>
        ensures { IfOk result (λ mapped. option_map (λ m. m.items) mapped ≡ remaps.mapped_if has (node_of self.now).mapped (node_of self.now).site at index kind) }
    {
        if !has {
            return Ok(None);
        }
        let Some(page) = self.site.reached(at, byte_place(index, 0)) else {
            return Ok(None);
        };
        let mapping = Mapping { at, page, kind };
        let after = remapped(self.alloc, self.mapped.as_slice(), &mapping)?;
        Ok(Some(after))
    }

    /// A load of the page's first byte, with which it is given up. It brings no bytes any more.
    pub(crate) fn hear_unmap(&self, unmap: &UnmapAsk<A>) -> Result<Option<Heard<A>>, AllocError>
        ensures heard { IfOk result (λ heard. option_map heard_of heard ≡ spec.unmapped_here (node_of self.now) (unmap_in unmap.now)) }
        ensures proper { IfOk result (λ heard. IfSome heard (λ h. is_foreign self.now.sites self.now.me (input_of h.input) ≡ false)) }
        ensures early { IfOk result (λ heard. IfSome heard (λ h. max self.now.clock h.source < greatest)) }
    {
        if unmap.site != self.me || self.is_late(0) {
            return Ok(None);
        }
        let Some(input) = input_unmapped(unmap) else {
            return Ok(None);
        };
        let mapped = self.unmapped_to(unmap.at, unmap.index, unmap.keeps)?;
        Ok(Some(Heard {
            input,
            source: 0,
            tag: Some(unmap.tag),
            waits: None,
            mapped,
        }))
    }

    /// What is mapped once the page is given up so far.
    fn unmapped_to(
        &self,
        at: u32,
        index: u32,
        keeps: Option<Kind>,
    ) -> Result<Option<Vec<Mapping, A>>, AllocError>
        ensures { IfOk result (λ left. option_map (λ m. m.items) left
            ≡ remaps.unmapped_to (node_of self.now).mapped keeps (page_at (node_of self.now).site at (mapped.byte_place index 0))) }
    {
        let Some(page) = self.site.reached(at, byte_place(index, 0)) else {
            return Ok(None);
        };
        let left = lowered(self.alloc, self.mapped.as_slice(), &page, keeps)?;
        Ok(Some(left))
    }

    /// The envelope is from too far ahead, or names a number that no site can have got by its clock.
    pub(crate) fn is_beyond(&self, sent: &Sent<A>) -> bool
        ensures { result ≡ spec.is_beyond (node_of self.now) (sent_of sent.now) }
    {
        let source = sent.source.clock;
        self.is_ahead(source) || !numbers_fit(source, &sent.envelope.message)
    }

    /// The clock is too far above this site's.
    fn is_ahead(&self, source: u64) -> bool
        ensures { result ≡ spec.is_ahead (node_of self.now) source }
    {
        source.saturating_sub(self.clock) > MOST_AHEAD
    }

    /// No stamp is above this site's clock, or above the sender's.
    pub(crate) fn is_late(&self, source: u64) -> bool
        ensures late { result ≡ spec.is_late (node_of self.now) source }
        ensures below { result ≡ false → max self.now.clock source < greatest }
    {
        self.clock.max(source) == u64::MAX
    }
}

/// The input for a question. A page, counts and mappings are only shown, and a block is loaded byte by byte, so these have none. A map is a
/// load of the page's first byte.
pub fn input_asked<A: Allocator + Copy>(question: Question) -> Option<Input<A>>
    ensures input { option_map input_of result ≡ spec.input_asked question }
    ensures proper { (sites me : ℕ) → IfSome result (λ input. is_foreign sites me (input_of input) ≡ false) }
{
    match question {
        Question::Access(asked) | Question::Try(asked) => Some(Input::of(asked)),
        Question::Begin(request) => Some(Input::Begin(request)),
        Question::Tick => Some(Input::Tick),
        Question::Show(_) | Question::Health | Question::Read { .. } => None,
        Question::Mappings => None,
        Question::Map { at, index, .. } => Some(first_load(at, index)),
    }
}

/// The input with which a page is given up: a load of its first byte, once no bytes are brought any more.
pub fn input_unmapped<A: Allocator + Copy>(unmap: &UnmapAsk<A>) -> Option<Input<A>>
    ensures input { option_map input_of result ≡ spec.unmap_input (unmap_in unmap.now) }
    ensures proper { (sites me : ℕ) → IfSome result (λ input. is_foreign sites me (input_of input) ≡ false) }
{
    if !unmap.runs.is_empty() {
        return None;
    }
    Some(first_load(unmap.at, unmap.index))
}

/// A load of the page's first byte.
fn first_load<A: Allocator + Copy>(at: u32, index: u32) -> Input<A>
    ensures input { input_of result ≡ remaps.first_load at index }
    ensures proper { (sites me : ℕ) → is_foreign sites me (input_of result) ≡ false }
{
    Input::Load {
        at,
        offset: byte_place(index, 0),
    }
}

/// The access, if it is one that waits for its right.
fn waits_for_right(question: Question) -> Option<Asked>
    ensures { (tag : List ℕ) → access_under (Some tag) result ≡ spec.waits_for tag question }
{
    match question {
        Question::Access(asked) => Some(asked),
        _ => None,
    }
}
