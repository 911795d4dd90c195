//! Mapped pages: which access passes them by, and whether the site has the right to a page.
ghost use Rattle.std.specs.Prelude.{◌≡◌, IfOk, map};
ghost use Rattle.std.specs.List.{list_all};
ghost use Rattle.shm_process.specs.Mapped as spec;
ghost use Rattle.shm_process.specs.NodeOf.{node_of};
ghost use Rattle.shm_process.specs.Remaps as remaps;
ghost use Rattle.shm_process.specs.Remaps.{bytes_there, may_unmap};
ghost use Rattle.shm_wire.specs.UnmapOf.{run_in, unmap_in};

use crate::byte_place::byte_place;
use crate::mapping_list::{is_mapped_through, mapped_at};
use crate::node::Node;
use shm_model::{Asked, Kind, Request};
use shm_place::PAGE_BYTES;
use shm_wire::{Mapping, Run, UnmapAsk};
use std::alloc::{AllocError, Allocator};

impl<A: Allocator + Copy> Node<A> {
    /// The mapping of the page that an access at this offset goes to.
    pub(crate) fn mapped_there(&self, at: u32, offset: u32) -> Option<Mapping>
        ensures { result ≡ spec.mapped_there (node_of self.now).mapped (node_of self.now).site at offset }
    {
        match self.site.reached(at, offset) {
            Some(page) => mapped_at(self.mapped.as_slice(), &page),
            None => None,
        }
    }

    /// The mapping that the access would pass by, if it would.
    pub(crate) fn passing(&self, asked: Asked) -> Option<Mapping>
        ensures { result ≡ spec.passing (node_of self.now).mapped (node_of self.now).site asked }
    {
        match asked {
            Asked::Load { at, offset } => passed_by(false, self.mapped_there(at, offset)),
            Asked::Store { at, offset, .. } => passed_by(true, self.mapped_there(at, offset)),
        }
    }

    /// Checks that the request detaches what a page is mapped through.
    pub(crate) fn is_detained(&self, request: Request) -> bool
        ensures { result ≡ spec.is_detained (node_of self.now).mapped request }
    {
        match request {
            Request::DetachAt(at) => is_mapped_through(self.mapped.as_slice(), at),
            Request::Op(_) => false,
        }
    }

    /// Checks that the page may be accessed so, and the site has the right to it.
    pub(crate) fn has_right(&self, at: u32, index: u32, kind: Kind) -> bool
        ensures { result ≡ remaps.has_right (node_of self.now).sites (node_of self.now).me (node_of self.now).site at index kind }
    {
        let offset = byte_place(index, 0);
        match kind {
            Kind::Read => self.site.byte_at(at, offset).is_some(),
            Kind::Write => self.site.takes_store(at, offset),
        }
    }

    /// Checks that such an access would wait for a right that was asked for before.
    pub(crate) fn waits_for_right(&self, at: u32, index: u32, kind: Kind) -> bool
        ensures { result ≡ remaps.waits_for_right (node_of self.now).sites (node_of self.now).me (node_of self.now).site at index kind }
    {
        let offset = byte_place(index, 0);
        match kind {
            Kind::Read => self.site.load_waits(at, offset),
            Kind::Write => self.site.store_waits(at, offset),
        }
    }

    /// Checks that the page is mapped so, and that the runs are the page's.
    pub(crate) fn may_unmap(&self, ask: &UnmapAsk<A>) -> bool
        ensures { result ≡ may_unmap (node_of self.now).mapped (node_of self.now).site (unmap_in ask.now) }
    {
        let mapping = self.mapped_there(ask.at, byte_place(ask.index, 0));
        let runs = ask.runs.as_slice();
        may_give_up(ask.at, runs, mapping) && are_of_page(ask.index, runs)
    }

    /// The bytes of the page at this place of the attachment's segment.
    pub(crate) fn bytes_there(&self, at: u32, index: u32) -> Result<Vec<u8, A>, AllocError>
        ensures { IfOk result (λ bytes. bytes.items ≡ bytes_there (node_of self.now).site at index) }
    {
        match self.site.reached(at, byte_place(index, 0)) {
            Some(page) => self.site.bytes(page),
            None => Ok(Vec::new(self.alloc)),
        }
    }
}

fn passed_by(stores: bool, mapping: Option<Mapping>) -> Option<Mapping>
    ensures { result ≡ spec.passed_by stores mapping }
{
    match mapping {
        Some(mapping) if stores || mapping.kind == Kind::Write => Some(mapping),
        _ => None,
    }
}

/// A mapping through this attachment, and bytes only where they may have changed.
fn may_give_up<A: Allocator + Copy>(at: u32, runs: &[Run<A>], mapping: Option<Mapping>) -> bool
    ensures { result ≡ remaps.may_give_up at (map run_in runs.now) mapping }
{
    match mapping {
        Some(mapping) => mapping.at == at && (mapping.kind == Kind::Write || runs.is_empty()),
        None => false,
    }
}

fn are_of_page<A: Allocator + Copy>(index: u32, runs: &[Run<A>]) -> bool
    ensures { result ≡ list_all (remaps.is_of_page index) (map run_in runs.now) }
{
    'runs: for run in runs {
        if !is_of_page(index, run) {
            return false;
        }
    }
    true
}

fn is_of_page<A: Allocator + Copy>(index: u32, run: &Run<A>) -> bool
    ensures { result ≡ remaps.is_of_page index (run_in run.now) }
{
    let first = index as usize * PAGE_BYTES;
    let offset = run.offset as usize;
    first <= offset
        && offset <= first + PAGE_BYTES
        && run.bytes.len() <= first + PAGE_BYTES - offset
}
