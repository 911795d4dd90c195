//! A node goes further with a block, or with the bytes that an unmap brings: it makes at once the loads or stores that go to one page which the
//! site has the right to. Each is a step.
ghost use Rattle.std.specs.Prelude.{◌≡◌, ◌≢◌, ◌<◌, ◌≤◌, ◌+◌, ◌^◌, [], drop, length, map, slice_set, take, true, IfOk, OnOk, vec_len};
ghost use Rattle.shm_model.specs.Access.{store};
ghost use Rattle.shm_model.specs.Basics.{greatest};
ghost use Rattle.shm_place.specs.Limits.{page_bytes};
ghost use Rattle.shm_place.specs.Offset.{within_of};
ghost use Rattle.shm_process.specs.AskOf.{ask_of};
ghost use Rattle.shm_process.specs.Further.{MayBring, MayLoad, MayStore, after_brought, after_loads, after_stores, leaves_loads, leaves_stores, stored_from, with_loaded, with_stored};
ghost use Rattle.shm_process.specs.NodeOf.{node_of};
ghost use Rattle.shm_process.specs.WaitingAsks.{Writes, ask_in};
ghost use Rattle.shm_process.specs.Writes.{Write};
ghost use Rattle.shm_site.specs.AtOnce.{is_stored};
ghost use Rattle.shm_site.specs.Site.{SameSeat, site_of};

use crate::node::Node;
use crate::waiting_ask::WaitingAsk;
use shm_model::Asked;
use shm_parts::Envelope;
use shm_place::{PAGE_BYTES, SiteId};
use shm_site::Site;
use std::alloc::{AllocError, Allocator};

impl<A: Allocator + Copy> Node<A> {
    /// The bytes that further loads of the block at this place give, at most so many: of the page that its next load goes to, and not the
    /// block's last. None: it is no block that is loaded, or the site may not read the page.
    pub(crate) fn loads_ahead(&self, at: usize, most: usize) -> Result<Vec<u8, A>, AllocError>
        requires { at < vec_len self.now.waiting }
        ensures few { IfOk result (λ more. vec_len more ≤ most) }
        ensures may { IfOk result (λ more. more.items ≢ [] → MayLoad (node_of self.now) at more.items) }
    {
        let WaitingAsk::Reads(block) = &self.waiting[at] else {
            return Ok(Vec::new(self.alloc));
        };
        let offset = block.next_offset();
        if self.site.byte_at(block.at, offset).is_none() {
            return Ok(Vec::new(self.alloc));
        }
        let Some(page) = self.site.reached(block.at, offset) else {
            return Ok(Vec::new(self.alloc));
        };
        let count = least(most, block.left(), bytes_to_end(offset), self.clocks_left());
        let bytes = self.site.bytes(page)?;
        Vec::from_slice(
            self.alloc,
            part(bytes.as_slice(), place_in_page(offset), count),
        )
    }

    /// Makes the loads that give these bytes.
    #[tactic(auto, using(crate::proofs::FurtherFits::loads_leave))]
    pub(crate) fn take_loads(&mut self, at: usize, more: &[u8])
        requires within { at < vec_len self.old.waiting }
        requires may { MayLoad (node_of self.old) at more.now }
        ensures { node_of self.new ≡ after_loads (node_of self.old) at more.now }
    {
        push_loaded(&mut self.waiting, at, more);
        self.count_steps(more.len());
    }

    /// The bytes that the block at this place has stored next, at most so many: those of the page that its next store goes to, and not the
    /// block's last. None: it is no block that is stored, or the site may not write the page.
    pub(crate) fn stores_ahead(&self, at: usize, most: usize) -> Result<Vec<u8, A>, AllocError>
        requires { at < vec_len self.now.waiting }
        ensures few { IfOk result (λ more. vec_len more ≤ most) }
        ensures may { IfOk result (λ more. more.items ≢ [] → MayStore (node_of self.now) at more.items) }
    {
        let WaitingAsk::Writes(write) = &self.waiting[at] else {
            return Ok(Vec::new(self.alloc));
        };
        let offset = write.next_offset();
        if !self.site.takes_store(write.at, offset) {
            return Ok(Vec::new(self.alloc));
        }
        let count = least(most, write.left(), bytes_to_end(offset), self.clocks_left());
        Vec::from_slice(
            self.alloc,
            part(write.bytes.as_slice(), write.stored, count),
        )
    }

    /// Makes the stores of these bytes. Where memory is refused the node is useless.
    pub(crate) fn take_stores(&mut self, at: usize, more: &[u8]) -> Result<(), AllocError>
        requires within { at < vec_len self.old.waiting }
        requires may { MayStore (node_of self.old) at more.now }
        ensures { OnOk result (node_of self.new ≡ after_stores (node_of self.old) at more.now) }
    {
        let (attachment, offset) = next_store_at(self.waiting.as_slice(), at);
        store_bytes(self.alloc, &mut self.site, attachment, offset, more)?;
        count_stored(&mut self.waiting, at, more.len());
        self.count_steps(more.len());
        Ok(())
    }

    /// Checks that so many bytes, which an unmap brings to this site, can be stored at once.
    #[tactic(auto, using(crate::proofs::FurtherFits::brings_may))]
    pub(crate) fn may_bring(&self, site: SiteId, at: u32, offset: u32, count: usize) -> bool
        ensures { result ≡ true → MayBring (node_of self.now) site at offset count }
    {
        site == self.me && self.takes_stores(at, offset, count)
    }

    /// Checks that so many stores, the first at this offset, are of one page that the site may write, and that there is a clock for each.
    fn takes_stores(&self, at: u32, offset: u32, count: usize) -> bool
        ensures clocks { result ≡ true → (node_of self.now).clock + count ≤ greatest }
        ensures inside { result ≡ true → within_of offset + count ≤ page_bytes }
        ensures takes { result ≡ true → is_stored (store self.now.site.sites self.now.site.me at offset 0 (node_of self.now).site).answer ≡ true }
    {
        if least(count, self.clocks_left(), bytes_to_end(offset), count) < count {
            return false;
        }
        self.site.takes_store(at, offset)
    }

    /// Stores these bytes that an unmap brings. Each counts as a line that made a step. Where memory is refused the node is useless.
    pub(crate) fn store_brought(
        &mut self,
        at: u32,
        offset: u32,
        more: &[u8],
    ) -> Result<(), AllocError>
        requires within { offset + length more.now ≤ 2 ^ 32 }
        requires clocks { (node_of self.old).clock + length more.now ≤ greatest }
        ensures { OnOk result (node_of self.new ≡ after_brought (node_of self.old) at offset more.now) }
    {
        store_bytes(self.alloc, &mut self.site, at, offset, more)?;
        self.count_steps(more.len());
        self.taken = self.taken.saturating_add(more.len() as u64);
        Ok(())
    }

    /// How many steps there are clocks for.
    fn clocks_left(&self) -> usize
        ensures { (node_of self.now).clock + result ≤ greatest }
    {
        (u64::MAX - self.clock) as usize
    }

    /// So many steps were made, each under the clock after the one before.
    fn count_steps(&mut self, count: usize)
        requires { (node_of self.old).clock + count ≤ greatest }
        ensures { node_of self.new ≡ record (node_of self.old) { clock = (node_of self.old).clock + count; steps = (node_of self.old).steps + count } }
    {
        let (clock, steps) = (self.clock + count as u64, self.steps + count as u64);
        self.clock = clock;
        self.steps = steps;
    }
}

/// The least of four numbers.
fn least(a: usize, b: usize, c: usize, d: usize) -> usize
    ensures a { result ≤ a }
    ensures b { result ≤ b }
    ensures c { result ≤ c }
    ensures d { result ≤ d }
{
    a.min(b).min(c.min(d))
}

/// The place of this offset in its page.
fn place_in_page(offset: u32) -> usize
    ensures { result ≡ within_of offset }
{
    offset as usize % PAGE_BYTES
}

/// How many bytes a page has from this offset of its segment on.
fn bytes_to_end(offset: u32) -> usize
    ensures { within_of offset + result ≡ page_bytes }
{
    PAGE_BYTES - place_in_page(offset)
}

/// So many bytes from this place on; none where there aren't so many.
fn part(bytes: &[u8], from: usize, count: usize) -> &[u8]
    ensures part { result.now ≡ take (length result.now) (drop from bytes.now) }
    ensures few { length result.now ≤ count }
{
    if bytes.len() < from || bytes.len() - from < count {
        return &[];
    }
    &bytes[from..from + count]
}

/// Where the next store of the block at this place goes.
#[tactic(auto, using(crate::proofs::Asks::map_read))]
fn next_store_at<A: Allocator + Copy>(waiting: &[WaitingAsk<A>], at: usize) -> (u32, u32)
    requires { at < length waiting.now }
    ensures { (write : Write) → ask_in (map ask_of waiting.now) at ≡ Writes write → (result.0 ≡ write.at) × (result.1 ≡ write.offset + write.stored) }
{
    match waiting[at].next_access() {
        Asked::Load { at, offset } => (at, offset),
        Asked::Store { at, offset, .. } => (at, offset),
    }
}

/// The block at this place has these bytes more.
#[tactic(auto, using(crate::proofs::Asks::map_read, crate::proofs::Asks::map_set))]
fn push_loaded<A: Allocator + Copy>(waiting: &mut Vec<WaitingAsk<A>, A>, at: usize, more: &[u8])
    requires within { at < vec_len waiting.old }
    requires left { leaves_loads (ask_in (map ask_of waiting.old.items) at) (length more.now) ≡ true }
    ensures { map ask_of waiting.new.items ≡ slice_set (map ask_of waiting.old.items) at (with_loaded (ask_in (map ask_of waiting.old.items) at) more.now) }
{
    waiting[at].add_loaded(more);
}

/// The block at this place has so many bytes more stored.
#[tactic(auto, using(crate::proofs::Asks::map_read, crate::proofs::Asks::map_set))]
fn count_stored<A: Allocator + Copy>(waiting: &mut Vec<WaitingAsk<A>, A>, at: usize, count: usize)
    requires within { at < vec_len waiting.old }
    requires left { leaves_stores (ask_in (map ask_of waiting.old.items) at) count ≡ true }
    ensures { map ask_of waiting.new.items ≡ slice_set (map ask_of waiting.old.items) at (with_stored (ask_in (map ask_of waiting.old.items) at) count) }
{
    waiting[at].add_stored(count);
}

/// Stores these bytes one after another, the first at this offset.
fn store_bytes<A: Allocator + Copy>(
    alloc: A,
    site: &mut Site<A>,
    at: u32,
    offset: u32,
    bytes: &[u8],
) -> Result<(), AllocError>
    requires { offset + length bytes.now ≤ 2 ^ 32 }
    ensures stored { OnOk result (site_of site.new ≡ stored_from site.old.sites site.old.me at offset bytes.now (site_of site.old)) }
    ensures seat { SameSeat site.old site.new }
{
    let mut sent: Vec<Envelope<A>, A> = Vec::new(alloc);
    'bytes: for place in 0..bytes.len() {
        site.store(at, offset + place as u32, bytes[place], &mut sent)?;
    }
    Ok(())
}
