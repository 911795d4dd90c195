ghost use Rattle.std.specs.Prelude.{◌≡◌, false, map, slice_index_or, slice_set, IfOk, true};
ghost use Rattle.shm_logs.specs.Auditing.Logs.{logs_of};
ghost use Rattle.shm_logs.specs.Auditing.Marks.{mark_at, marked, marks_of, unmarked};

use crate::site_boxes::SiteLog;
use shm_place::SiteId;
use std::alloc::{AllocError, Allocator, Global};

/// The steps of the logs that receipts have named.
#[derive(Drop)]
pub(crate) struct Marks<A: Allocator + Copy = Global> {
    rows: Vec<Vec<bool, A>, A>,
}

impl<A: Allocator + Copy> Marks<A> {
    /// No step of these logs.
    pub(crate) fn new(alloc: A, logs: &[SiteLog<A>]) -> Result<Marks<A>, AllocError>
        ensures { IfOk result (λ marks. marks_of marks ≡ map unmarked (logs_of logs.now)) }
    {
        let mut rows = Vec::with_capacity(alloc, logs.len())?;
        'logs: for log in logs {
            let row = vec![in alloc; false; log.len()]?;
            rows.push_reserved(row);
        }
        Ok(Marks { rows })
    }

    /// Checks that the step is marked.
    pub(crate) fn has(&self, site: SiteId, index: usize) -> bool
        ensures { result ≡ mark_at (marks_of self.now) site index }
    {
        match self.rows.get(site.0 as usize) {
            Some(row) => is_set(row.as_slice(), index),
            None => false,
        }
    }

    /// Marks the step, where there is one.
    pub(crate) fn add(&mut self, site: SiteId, index: usize)
        ensures { marks_of self.new ≡ marked (marks_of self.old) site index }
    {
        if let Some(row) = self.rows.get_mut(site.0 as usize) {
            set(row.as_mut_slice(), index);
        }
    }
}

fn is_set(row: &[bool], index: usize) -> bool
    ensures { result ≡ slice_index_or row.now index false }
{
    match row.get(index) {
        Some(mark) => *mark,
        None => false,
    }
}

fn set(row: &mut [bool], index: usize)
    ensures { row.new ≡ slice_set row.old index true }
{
    if index < row.len() {
        row[index] = true;
    }
}
