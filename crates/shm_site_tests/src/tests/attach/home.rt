ghost use Rattle.std.specs.Prelude.{◌≡◌};

use crate::tests::expect;
use crate::tests::fill_heap::{Blocks, fill};
use linked_list_allocator::LocalHeap;
use shm_attach::{Done, Home, Op, Reply};
use shm_keys::SegTable;
use shm_model::{Cred, GetFlags, Mode};
use shm_place::{Key, SegId, SiteId, Sites};
use std::alloc::{AllocError, Allocator, Global};
use std::process::Abort;
use std::test::Fail;

const ROOT: Cred = Cred { uid: 0, gid: 0 };

/// How often a hole is widened at most.
const TRIES: usize = 1000;

/// The home of a single site.
#[derive(Drop)]
struct Lone<A: Allocator + Copy = Global> {
    home: Home<A>,
    ghost number: { home.table.home ≡ 0 },
    ghost sites: { home.table.sites ≡ 1 },
}

fn make_lone<A: Allocator + Copy>(alloc: A) -> Result<Lone<A>, AllocError> {
    let Ok(sites) = Sites::new(1) else {
        return Err(AllocError);
    };
    let table = SegTable::new(alloc, SiteId(0), sites);
    Ok(Lone {
        home: Home::new(table),
    })
}

impl<A: Allocator + Copy> Lone<A> {
    fn serve(&mut self, number: u64, call: Call) -> Answer {
        match call {
            Call::Make => self.make(number),
            Call::Remove => self.remove(number),
        }
    }

    fn make(&mut self, number: u64) -> Answer {
        let op = Op::Get {
            cred: ROOT,
            key: Key(5),
            size: 1,
            mode: Mode::OWNER_READ_WRITE,
            flags: GetFlags(0o1000),
        };
        self.home.serve(SiteId(0), number, op)
    }

    fn remove(&mut self, number: u64) -> Answer {
        let op = Op::Remove {
            cred: ROOT,
            id: SegId(0),
        };
        self.home.serve(SiteId(0), number, op)
    }
}

/// A segment is made, or removed.
#[derive(Clone, Copy)]
enum Call {
    Make,
    Remove,
}

type Answer = Result<Option<Done>, AllocError>;

const MADE: Option<Done> = Some(Done {
    reply: Reply::Id(SegId(0)),
    destroyed: None,
});

const DESTROYED: Option<Done> = Some(Done {
    reply: Reply::Ok,
    destroyed: Some(SegId(0)),
});

/// The segment was destroyed by this call when it came first.
const REMOVED: Option<Done> = Some(Done {
    reply: Reply::Ok,
    destroyed: None,
});

/// Makes the calls in turn. Stops the test at another answer.
fn run<A: Allocator + Copy>(
    rt: &impl Abort,
    lone: &mut Lone<A>,
    calls: &[(u64, Call, Option<Done>)],
) {
    'calls: for (number, call, done) in calls {
        expect_done(rt, lone.serve(*number, *call), *done);
    }
}

/// Stops the test where a call was answered otherwise.
fn expect_done(rt: &impl Abort, answer: Answer, expected: Option<Done>) {
    assert_eq!(rt; answer, Ok(expected));
}

const ONCE: [(u64, Call, Option<Done>); 6] = [
    (0, Call::Make, None),
    (4, Call::Make, MADE),
    (4, Call::Make, MADE),
    (5, Call::Remove, DESTROYED),
    (5, Call::Remove, REMOVED),
    (4, Call::Make, None),
];

#[test]
fn a_call_is_executed_once(rt: HostRuntime) -> Result<(), Fail> {
    let mut lone = make_lone(rt.alloc())?;
    run(&rt, &mut lone, &ONCE);
    drop(lone);
    Ok(())
}

const MADE_AND_REMOVED: [(u64, Call, Option<Done>); 2] = [
    (1, Call::Make, MADE),
    (2, Call::Remove, DESTROYED),
];

#[test]
fn what_was_destroyed_is_purged_once(rt: HostRuntime) -> Result<(), Fail> {
    let mut lone = make_lone(rt.alloc())?;
    run(&rt, &mut lone, &MADE_AND_REMOVED);
    expect(&rt, purge_copy(&rt, &lone).is_ok());
    expect(&rt, lone.home.next_purge(None).is_some());
    drop(lone);
    Ok(())
}

/// What a copy purges is purged there alone, and once.
fn purge_copy(rt: &impl Abort, lone: &Lone) -> Result<(), AllocError> {
    let mut copy = lone.home.copy()?;
    expect(rt, copy.on_purged(SegId(0), SiteId(0)));
    expect(rt, !copy.on_purged(SegId(0), SiteId(0)));
    expect(rt, copy.next_purge(None).is_none());
    drop(copy);
    Ok(())
}

#[test]
fn a_refused_call_is_executed_when_it_comes_again(rt: HostRuntime) -> Result<(), Fail> {
    let heap = LocalHeap::new(rt.alloc(), 1 << 14)?;
    let mut lone = make_lone(&heap)?;
    let mut blocks = Vec::new(rt.alloc());
    expect(&rt, fill(&heap, &mut blocks).is_ok());
    expect(&rt, made_after(&mut lone, &mut blocks) > Some(2));
    expect_done(&rt, lone.remove(2), DESTROYED);
    drop(blocks);
    drop(lone);
    Ok(())
}

/// How often the call is refused memory while the hole widens. None: it is never answered as it should be.
fn made_after<'a>(lone: &mut Lone<&'a LocalHeap>, blocks: &mut Blocks<'a>) -> Option<usize> {
    'tries: for tries in 0..TRIES {
        if lone.make(1) == Ok(MADE) {
            return Some(tries);
        }
        drop(blocks.pop());
    }
    None
}

#[test]
fn a_copy_is_refused_until_there_is_room(rt: HostRuntime) -> Result<(), Fail> {
    let heap = LocalHeap::new(rt.alloc(), 1 << 14)?;
    let mut lone = make_lone(&heap)?;
    expect_done(&rt, lone.make(1), MADE);
    let mut blocks = Vec::new(rt.alloc());
    expect(&rt, fill(&heap, &mut blocks).is_ok());
    expect(&rt, copied_after(&lone, &mut blocks) > Some(2));
    drop(blocks);
    drop(lone);
    Ok(())
}

/// How often a copy is refused memory while the hole widens. None: it has something to purge.
fn copied_after<'a>(lone: &Lone<&'a LocalHeap>, blocks: &mut Blocks<'a>) -> Option<usize> {
    'tries: for tries in 0..TRIES {
        if is_copied(lone) {
            return Some(tries);
        }
        drop(blocks.pop());
    }
    None
}

/// Whether there is memory for a copy, which has nothing to purge.
fn is_copied<'a>(lone: &Lone<&'a LocalHeap>) -> bool {
    match lone.home.copy() {
        Ok(copy) => copy.next_purge(None).is_none(),
        Err(_) => false,
    }
}
