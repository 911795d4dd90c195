ghost use Rattle.std.specs.Prelude.{◌≡◌, ℕ, ◌<◌, false, Some, IfSome, is_none, length, option_map};
ghost use Rattle.std.specs.List.{list_any, position_from};
ghost use Rattle.shm_model.specs.Basics.{at};
ghost use Rattle.shm_model.specs.Site.{Site, is_attached, is_attachment_of, least_free};
ghost use Rattle.shm_attach.specs.Attachments.{attachment_from, attachments_of, put_at, segment_of, with_attachments};

use shm_place::SegId;
use std::marker::Model;

/// How many attachments a site has at most; their numbers are below it.
pub const MAX_ATTACHMENTS: usize = 64;

/// One attachment (`shmat(2)`): the segment, its size in bytes as it was asked, and whether only to read.
#[derive(Clone, Copy)]
pub(crate) struct Attachment {
    pub(crate) id: SegId,
    pub(crate) size: u32,
    pub(crate) ro: bool,
}

impl Model for Attachment {
    ghost use Rattle.shm_model.specs.Calls.{Attachment as Record};

    ghost Value = { Record };

    ghost view = { λ a. record { id = a.id; size = a.size; ro = a.ro } };

    ghost inverse = { λ a. record { id = a.id; size = a.size; ro = a.ro } };
}

/// The attachments of a site, under the numbers 0 to 63.
#[derive(Drop)]
pub struct Attachments {
    slots: [Option<Attachment>; MAX_ATTACHMENTS],
}

impl Model for Attachments {
    ghost use Rattle.std.specs.Prelude.{◌≡◌, List, Option, length};
    ghost use Rattle.shm_model.specs.Calls.{Attachment as Record};

    ghost Value = { List (Option Record) };

    ghost view = { λ attachments. attachments.slots };

    ghost invariant = { λ attachments. length attachments.slots ≡ 64 };
}

impl Attachments {
    /// Nothing is attached.
    pub fn new() -> Attachments
        ensures { attachments_of result ≡ (λ _. None) }
    {
        Attachments {
            slots: [None; MAX_ATTACHMENTS],
        }
    }

    /// Attaches the segment at the least free number, and answers that number. None: no number is free, and nothing changes.
    pub fn put(&mut self, id: SegId, size: u32, ro: bool) -> Option<u32>
        ensures number { result ≡ least_free (attachments_of self.old) }
        ensures after { attachments_of self.new ≡ put_at result (record { id = id; size = size; ro = ro }) (attachments_of self.old) }
    {
        let number = self.least_free()?;
        self.slots[number] = Some(Attachment { id, size, ro });
        Some(number as u32)
    }

    /// Attaches the segment at this number, in place of what was attached there.
    pub fn restore(&mut self, number: u32, id: SegId, size: u32, ro: bool)
        requires { number < MAX_ATTACHMENTS }
        ensures { attachments_of self.new ≡ at (attachments_of self.old) number (Some (record { id = id; size = size; ro = ro })) }
    {
        self.slots[number as usize] = Some(Attachment { id, size, ro });
    }

    /// The least number at which nothing is attached.
    fn least_free(&self) -> Option<usize>
        ensures number { result ≡ least_free (attachments_of self.now) }
        ensures below { IfSome result (λ number. number < MAX_ATTACHMENTS) }
    {
        first_free(&self.slots)
    }

    /// Checks that no number is free.
    pub fn is_full(&self) -> bool
        ensures { result ≡ is_none (least_free (attachments_of self.now)) }
    {
        self.least_free().is_none()
    }

    /// The attachment with this number.
    pub(crate) fn at(&self, number: u32) -> Option<Attachment>
        ensures attachment { result ≡ attachments_of self.now number }
        ensures below { IfSome result (λ _. number < MAX_ATTACHMENTS) }
        ensures numbers { length self.now ≡ 64 }
    {
        let index = number as usize;
        if index < self.slots.len() {
            return self.slots[index];
        }
        None
    }

    /// What is attached at the number: the segment, its size as it was asked, and whether only to read.
    pub fn get(&self, number: u32) -> Option<(SegId, (u32, bool))>
        ensures attachment { option_map attachment_from result ≡ attachments_of self.now number }
        ensures numbers { length self.now ≡ 64 }
    {
        let attachment = self.at(number)?;
        Some((attachment.id, (attachment.size, attachment.ro)))
    }

    /// The segment that is attached at the number.
    pub fn segment(&self, number: u32) -> Option<SegId>
        ensures { result ≡ segment_of (attachments_of self.now number) }
    {
        let attachment = self.at(number)?;
        Some(attachment.id)
    }

    /// Takes away what is attached at the number, and gives the segment that it named. None: nothing was attached.
    pub fn take(&mut self, number: u32) -> Option<SegId>
        ensures segment { result ≡ segment_of (attachments_of self.old number) }
        ensures after { attachments_of self.new ≡ at (attachments_of self.old) number None }
    {
        let segment = self.segment(number);
        let index = number as usize;
        if index < self.slots.len() {
            self.slots[index] = None;
        }
        segment
    }

    /// Checks whether an attachment names the segment.
    pub fn names(&self, id: SegId) -> bool
        ensures named { (site : Site) → result ≡ is_attached (with_attachments (attachments_of self.now) site) id }
        ensures each { result ≡ false → (number : ℕ) → is_attachment_of id (attachments_of self.now number) ≡ false }
    {
        is_among(&self.slots, id)
    }

    /// The same attachments.
    pub fn copy(&self) -> Attachments
        ensures { result ≡ self.now }
    {
        let mut slots = [None; MAX_ATTACHMENTS];
        slots.copy_from_slice(&self.slots);
        Attachments { slots }
    }
}

/// The first empty slot.
fn first_free(slots: &[Option<Attachment>]) -> Option<usize>
    ensures first { result ≡ position_from is_none 0 slots.now }
    ensures below { IfSome result (λ number. number < length slots.now) }
{
    slots.iter().position(|slot| slot.is_none())
}

fn is_among(slots: &[Option<Attachment>], id: SegId) -> bool
    ensures { result ≡ list_any (is_attachment_of id) slots.now }
{
    slots.iter().any(|slot| names(slot, id))
}

fn names(slot: &Option<Attachment>, id: SegId) -> bool
    ensures { result ≡ is_attachment_of id slot.now }
{
    match slot {
        None => false,
        Some(attachment) => attachment.id == id,
    }
}
