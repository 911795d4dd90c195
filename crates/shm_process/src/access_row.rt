//! Accesses of asks that wait, made one after another: they are recorded as a row, in one entry.
ghost use Rattle.std.specs.Prelude.{◌≡◌, ◌+◌, ◌<◌, ◌≤◌, ◌==◌, ◌++◌, ℕ, List, false, true, length, slice_index, IfOk, None, OnOk, Some, if◌then◌else◌, string_bytes};
ghost use Rattle.shm_model.specs.declared.asked_access.Asked.TheVariants as asked;
ghost use Rattle.shm_place.specs.Limits.{page_bytes};
ghost use Rattle.shm_process.specs.Access.{access_ask};
ghost use Rattle.shm_process.specs.Cause.{cause_text};
ghost use Rattle.shm_process.specs.Further.{LoadsGoOn, StoresGoOn};
ghost use Rattle.shm_process.specs.RowOf.{accesses_of, row_of};
ghost use Rattle.shm_process.specs.Rows as spec;
ghost use Rattle.shm_process.specs.Rows.{accesses_cause, follows, joined, size, with_accesses};
ghost use Rattle.shm_wire.specs.Line as stream;
ghost use Rattle.shm_wire.specs.Line.{line_text};
ghost use Rattle.shm_wire.specs.TagOf.{tag_text};
ghost use Rattle.shm_wire.specs.WriteOf.{write_of};
ghost use Rattle.shm_wire.specs.declared.caller_ask.Question.TheVariants as question;

use shm_model::Asked;
use shm_place::{PAGE_BYTES, SiteId};
use shm_wire::{Ask, Question, Tag, WriteAsk};
use std::alloc::{AllocError, Allocator, Global};

/// So many loads, or stores of these bytes.
#[derive(Drop)]
pub(crate) enum Accesses<A: Allocator + Copy = Global> {
    Loads(u32),
    Stores(Vec<u8, A>),
}

/// Loads or stores under one tag, through one attachment, each at the offset and under the clock after those of the one before. It has the
/// first one's.
#[derive(Drop)]
pub(crate) struct Row<A: Allocator + Copy = Global> {
    pub(crate) clock: u64,
    pub(crate) tag: Tag,
    pub(crate) at: u32,
    pub(crate) offset: u32,
    pub(crate) accesses: Accesses<A>,
}

impl<A: Allocator + Copy> Accesses<A> {
    /// How many there are.
    fn count(&self) -> u64
        ensures { result ≡ size (accesses_of self.now) }
    {
        match self {
            Accesses::Loads(count) => *count as u64,
            Accesses::Stores(bytes) => bytes.len() as u64,
        }
    }
}

impl<A: Allocator + Copy> Row<A> {
    /// A row of one.
    pub(crate) fn of(alloc: A, clock: u64, tag: Tag, asked: Asked) -> Result<Row<A>, AllocError>
        ensures { IfOk result (λ row. row_of row ≡ spec.row_of clock (tag_text tag) asked) }
    {
        match asked {
            Asked::Load { at, offset } => Ok(Row {
                clock,
                tag,
                at,
                offset,
                accesses: Accesses::Loads(1),
            }),
            Asked::Store { at, offset, byte } => {
                let bytes = vec![in alloc; byte]?;
                Ok(Row {
                    clock,
                    tag,
                    at,
                    offset,
                    accesses: Accesses::Stores(bytes),
                })
            }
        }
    }

    /// The row takes the access made under this clock, if that goes on with it. Answers whether it does; else the row stays as it is.
    pub(crate) fn take(&mut self, clock: u64, tag: &Tag, asked: Asked) -> Result<bool, AllocError>
        ensures joined { IfOk result (λ taken. (if taken then Some (row_of self.new) else None)
            ≡ joined (row_of self.old) (spec.row_of clock (tag_text tag.now) asked)) }
        ensures same { IfOk result (λ taken. taken ≡ false → row_of self.new ≡ row_of self.old) }
    {
        match asked {
            Asked::Load { at, offset } => Ok(self.take_load(clock, tag, at, offset)),
            Asked::Store { at, offset, byte } => self.take_store(clock, tag, at, offset, byte),
        }
    }

    fn take_load(&mut self, clock: u64, tag: &Tag, at: u32, offset: u32) -> bool
        ensures joined { (if result then Some (row_of self.new) else None)
            ≡ joined (row_of self.old) (spec.row_of clock (tag_text tag.now) (asked.Load at offset)) }
        ensures same { result ≡ false → row_of self.new ≡ row_of self.old }
    {
        if !self.is_followed(clock, tag, at, offset) {
            return false;
        }
        match &mut self.accesses {
            Accesses::Loads(count) => {
                *count += 1;
                true
            }
            Accesses::Stores(_) => false,
        }
    }

    fn take_store(
        &mut self,
        clock: u64,
        tag: &Tag,
        at: u32,
        offset: u32,
        byte: u8,
    ) -> Result<bool, AllocError>
        ensures joined { IfOk result (λ taken. (if taken then Some (row_of self.new) else None)
            ≡ joined (row_of self.old) (spec.row_of clock (tag_text tag.now) (asked.Store at offset byte))) }
        ensures same { IfOk result (λ taken. taken ≡ false → row_of self.new ≡ row_of self.old) }
    {
        if !self.is_followed(clock, tag, at, offset) {
            return Ok(false);
        }
        match &mut self.accesses {
            Accesses::Loads(_) => Ok(false),
            Accesses::Stores(bytes) => {
                bytes.push(byte)?;
                Ok(true)
            }
        }
    }

    /// How many loads go on with the row, the first this one, under this clock.
    pub(crate) fn loads_room(&self, clock: u64, tag: &Tag, asked: Asked) -> usize
        ensures { 0 < result → LoadsGoOn (row_of self.now) clock (tag_text tag.now) asked result }
    {
        match asked {
            Asked::Load { at, offset } => self.room_for_loads(clock, tag, at, offset),
            Asked::Store { .. } => 0,
        }
    }

    /// How many stores go on with the row, the first this one, under this clock.
    pub(crate) fn stores_room(&self, clock: u64, tag: &Tag, asked: Asked) -> usize
        ensures { 0 < result → StoresGoOn (row_of self.now) clock (tag_text tag.now) asked result }
    {
        match asked {
            Asked::Load { .. } => 0,
            Asked::Store { at, offset, .. } => self.room_for_stores(clock, tag, at, offset),
        }
    }

    fn room_for_loads(&self, clock: u64, tag: &Tag, at: u32, offset: u32) -> usize
        ensures { 0 < result → LoadsGoOn (row_of self.now) clock (tag_text tag.now) (asked.Load at offset) result }
    {
        if !self.is_followed(clock, tag, at, offset) {
            return 0;
        }
        match &self.accesses {
            Accesses::Loads(count) => PAGE_BYTES - *count as usize,
            Accesses::Stores(_) => 0,
        }
    }

    fn room_for_stores(&self, clock: u64, tag: &Tag, at: u32, offset: u32) -> usize
        ensures { (byte : ℕ) → 0 < result → StoresGoOn (row_of self.now) clock (tag_text tag.now) (asked.Store at offset byte) result }
    {
        if !self.is_followed(clock, tag, at, offset) {
            return 0;
        }
        match &self.accesses {
            Accesses::Loads(_) => 0,
            Accesses::Stores(bytes) => PAGE_BYTES - bytes.len(),
        }
    }

    /// A row of loads takes so many more.
    pub(crate) fn add_loads(&mut self, more: usize)
        requires { size (row_of self.old).accesses + more ≤ page_bytes }
        ensures { (loads : ℕ) → (row_of self.old).accesses ≡ spec.Loads loads → row_of self.new ≡ with_accesses (row_of self.old) (spec.Loads (loads + more)) }
    {
        if let Accesses::Loads(count) = &mut self.accesses {
            *count += more as u32;
        }
    }

    /// A row of stores takes those of these bytes.
    pub(crate) fn add_stores(&mut self, more: &[u8]) -> Result<(), AllocError>
        ensures { (before : List ℕ) → (row_of self.old).accesses ≡ spec.Stores before
            → OnOk result (row_of self.new ≡ with_accesses (row_of self.old) (spec.Stores (before ++ more.now))) }
    {
        if let Accesses::Stores(bytes) = &mut self.accesses {
            bytes.extend_from_slice(more)?;
        }
        Ok(())
    }

    /// Checks that an access there goes on where the row ends, which has less than a page's bytes.
    fn is_followed(&self, clock: u64, tag: &Tag, at: u32, offset: u32) -> bool
        ensures follows { (accesses : spec.Accesses) → result ≡ follows (row_of self.now)
            (record { clock = clock; tag = tag_text tag.now; at = at; offset = offset; accesses = accesses }) }
        ensures less { result ≡ true → size (row_of self.now).accesses < page_bytes }
    {
        let count = self.accesses.count();
        self.tag.as_str() == tag.as_str()
            && self.at == at
            && (offset as u64).checked_sub(self.offset as u64) == Some(count)
            && clock.checked_sub(self.clock) == Some(count)
            && count < PAGE_BYTES as u64
    }

    /// The line of its entry, behind the clock: a row of one is spelled as the access alone.
    pub(crate) fn line(self, alloc: A, site: SiteId) -> Result<String<A>, AllocError>
        ensures { IfOk result (λ line. string_bytes line ≡ cause_text (accesses_cause site (row_of self) (row_of self).accesses)) }
    {
        let Row {
            tag,
            at,
            offset,
            accesses,
            ..
        } = self;
        match accesses {
            Accesses::Loads(count) => {
                let asked = loads_asked(at, offset, count);
                format!(in alloc; "{}", Ask { site, tag, asked })
            }
            Accesses::Stores(bytes) => stores_line(
                alloc,
                WriteAsk {
                    site,
                    tag,
                    at,
                    offset,
                    bytes,
                },
            ),
        }
    }
}

/// The block of so many loads, or the one load.
fn loads_asked(at: u32, offset: u32, length: u32) -> Question
    ensures { result ≡ (if length == 1 then question.Access (asked.Load at offset) else question.Read at offset length) }
{
    if length == 1 {
        return Question::Access(Asked::Load { at, offset });
    }
    Question::Read { at, offset, length }
}

/// The line of a block that is stored, or of the one store.
fn stores_line<A: Allocator + Copy>(alloc: A, write: WriteAsk<A>) -> Result<String<A>, AllocError>
    ensures { IfOk result (λ line. string_bytes line ≡ line_text (if length write.bytes.items == 1
        then stream.Ask (access_ask write.site (tag_text write.tag) (asked.Store write.at write.offset (slice_index write.bytes.items 0)))
        else stream.Write (write_of write))) }
{
    if write.bytes.len() != 1 {
        return format!(in alloc; "{write}");
    }
    let asked = Asked::Store {
        at: write.at,
        offset: write.offset,
        byte: write.bytes[0],
    };
    let ask = Ask {
        site: write.site,
        tag: write.tag,
        asked: Question::Access(asked),
    };
    format!(in alloc; "{ask}")
}
