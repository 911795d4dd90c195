//! The rules of the calls as tables of calls and answers, a home that has made all that it may make, and refused growths.
//!
//! Where a test may stop, a table of segments is behind a reference: the proof writes out the drop of a table at each such place.
ghost use Rattle.std.specs.Prelude.{◌≡◌};

use shm_keys::{Attached, Cred, Errno, GetFault, GetFlags, Mode, SegTable, Stat};
use shm_place::{Key, SegId, SiteId, Sites};
use std::alloc::{AllocError, Allocator, Global};
use std::process::Abort;

mod calls;
mod limits;
mod out_of_memory;
mod pending_purges;
mod preset;

/// The table of the one home of a single site: each identifier is its own.
#[derive(Drop)]
struct Lone<A: Allocator + Copy = Global> {
    table: SegTable<A>,
    ghost home: { table.home ≡ 0 },
    ghost sites: { table.sites ≡ 1 },
}

fn make_lone<A: Allocator + Copy>(alloc: A) -> Result<Lone<A>, AllocError> {
    let Ok(sites) = Sites::new(1) else {
        return Err(AllocError);
    };
    Ok(Lone {
        table: SegTable::new(alloc, SiteId(0), sites),
    })
}

impl<A: Allocator + Copy> Lone<A> {
    fn get(
        &mut self,
        cred: Cred,
        key: u32,
        size: u32,
        mode: u32,
        flags: u32,
    ) -> Result<u32, GetFault> {
        let Some(mode) = Mode::from_bits(mode) else {
            return Err(GetFault::Refused(Errno::Einval));
        };
        match self.table.get(cred, Key(key), size, mode, GetFlags(flags)) {
            Ok(id) => Ok(id.0),
            Err(fault) => Err(fault),
        }
    }

    fn attach(&mut self, cred: Cred, id: u32, ro: bool) -> Result<Attached, Errno> {
        self.table.attach(cred, SegId(id), ro)
    }

    fn detach(&mut self, id: u32) -> Result<Option<SegId>, Errno> {
        self.table.detach(SegId(id))
    }

    fn remove(&mut self, cred: Cred, id: u32) -> Result<Option<SegId>, Errno> {
        self.table.remove(cred, SegId(id))
    }

    fn set(&mut self, cred: Cred, id: u32, uid: u32, gid: u32, mode: u32) -> Result<(), Errno> {
        let Some(mode) = Mode::from_bits(mode) else {
            return Err(Errno::Einval);
        };
        self.table.set(cred, SegId(id), uid, gid, mode)
    }

    fn stat(&self, cred: Cred, id: u32) -> Result<Stat, Errno> {
        self.table.stat(cred, SegId(id))
    }

    /// Why `stat` refuses to tell of the segment.
    fn stat_fault(&self, cred: Cred, id: u32) -> Option<Errno> {
        match self.stat(cred, id) {
            Ok(_) => None,
            Err(errno) => Some(errno),
        }
    }

    fn on_purged(&mut self, id: u32) -> bool {
        self.table.on_purged(SegId(id), SiteId(0))
    }

    fn next_purge(&self, after: Option<SegId>) -> Option<SegId> {
        match self.table.next_purge(after) {
            Some((id, _)) => Some(id),
            None => None,
        }
    }
}

/// Stops the test where a `get` answers otherwise.
fn expect_made(rt: &impl Abort, answer: Result<u32, GetFault>, expected: Result<u32, Errno>) {
    let expected = match expected {
        Ok(id) => Ok(id),
        Err(errno) => Err(GetFault::Refused(errno)),
    };
    assert_eq!(rt; answer, expected);
}

/// Stops the test where `stat` isn't refused so.
fn expect_no_stat(rt: &impl Abort, fault: Option<Errno>, expected: Errno) {
    assert_eq!(rt; fault, Some(expected));
}

/// Stops the test where `stat` tells something else.
fn expect_stat(rt: &impl Abort, answer: Result<Stat, Errno>, expected: Stat) {
    assert_eq!(rt; answer, Ok(expected));
}

/// Stops the test where another segment was made.
fn expect_id(rt: &impl Abort, answer: Result<SegId, GetFault>, expected: u32) {
    assert_eq!(rt; answer, Ok(SegId(expected)));
}

/// Stops the test where another segment is to be purged next.
fn expect_next(rt: &impl Abort, next: Option<SegId>, expected: Option<SegId>) {
    assert_eq!(rt; next, expected);
}

/// Stops the test where an attach answers otherwise.
fn expect_attached(
    rt: &impl Abort,
    answer: Result<Attached, Errno>,
    expected: Result<Attached, Errno>,
) {
    assert_eq!(rt; answer, expected);
}

/// Stops the test where a call answers otherwise.
fn expect_answer(rt: &impl Abort, answer: Result<(), Errno>, expected: Result<(), Errno>) {
    assert_eq!(rt; answer, expected);
}

/// Stops the test where a detach or a remove was answered otherwise, or another segment is gone by it.
fn expect_gone(
    rt: &impl Abort,
    answer: Result<Option<SegId>, Errno>,
    gone: Result<Option<SegId>, Errno>,
) {
    assert_eq!(rt; answer, gone);
}
