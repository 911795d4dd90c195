//! Boxes that are given inputs from tables, each with the receipt or the refusal that the rules want.
//!
//! Whoever holds a box drops it by name: a drop at the end of its scope is written out there, and takes far longer to prove.
use super::expect;
use shm_logs::{Answer, Asked, BoxFault, Envelope, Input, Receipt, SiteBox, Stamp};
use shm_model::Kind;
use shm_parts::{BookNote, Message, Note};
use shm_place::{PageId, SegId, SiteId, Sites};
use std::alloc::{AllocError, Allocator};
use std::process::Abort;
use std::test::Fail;

mod out_of_memory;

/// One input of a box: an access through attachment 0, a tick, or site 1 asking for this page of segment 0 to read it.
#[derive(Clone, Copy)]
enum Given {
    Load(u32),
    Store(u32, u8),
    Tick,
    Ask(u32),
}

/// What a receipt tells.
type Told = (u32, usize, Option<Asked>, Answer);

/// A step whose stamp no other can be above.
const LAST: Stamp = Stamp {
    at: u64::MAX,
    index: 0,
    place: 0,
};

/// Two accesses in the box of a single site.
const ACCESSES: [(Given, Stamp, Result<Told, BoxFault>); 2] = [
    (
        Given::Store(0, 7),
        Stamp::NONE,
        Ok((
            0,
            0,
            Some(Asked::Store {
                at: 0,
                offset: 0,
                byte: 7,
            }),
            Answer::Stored,
        )),
    ),
    (
        Given::Load(0),
        Stamp::NONE,
        Ok((
            0,
            1,
            Some(Asked::Load { at: 0, offset: 0 }),
            Answer::Byte(7),
        )),
    ),
];

#[test]
fn each_access_has_its_receipt(rt: HostRuntime) -> Result<(), Fail> {
    let mut site = preset_box(rt.alloc(), 1)?;
    run(&rt, &mut site, &ACCESSES);
    expect(&rt, look(&site) == (2, 2));
    drop(site);
    Ok(())
}

/// Page 1 is managed by site 1: site 0 can't have been asked for it. That comes before the clock.
const REFUSED: [(Given, Stamp, Result<Told, BoxFault>); 3] = [
    (Given::Tick, LAST, Err(BoxFault::ClockEnd)),
    (Given::Ask(1), LAST, Err(BoxFault::Foreign)),
    (Given::Ask(1), Stamp::NONE, Err(BoxFault::Foreign)),
];

#[test]
fn a_refused_input_is_not_logged(rt: HostRuntime) -> Result<(), Fail> {
    let mut site = preset_box(rt.alloc(), 2)?;
    run(&rt, &mut site, &REFUSED);
    expect(&rt, look(&site) == (0, 0));
    drop(site);
    Ok(())
}

/// A step is stamped above the step that sent what it is handed.
const STAMPED: [(Given, Stamp, Result<Told, BoxFault>); 1] = [(
    Given::Ask(0),
    Stamp {
        at: 4,
        index: 3,
        place: 0,
    },
    Ok((0, 0, None, Answer::Took)),
)];

#[test]
fn a_step_is_stamped_above_its_source(rt: HostRuntime) -> Result<(), Fail> {
    let mut site = preset_box(rt.alloc(), 2)?;
    run(&rt, &mut site, &STAMPED);
    expect(&rt, look(&site) == (1, 5));
    drop(site);
    Ok(())
}

/// Site 0 in its box, where segment 0 has 4 pages.
fn preset_box<A: Allocator + Copy>(alloc: A, count: u32) -> Result<SiteBox<A>, AllocError> {
    match Sites::new(count) {
        Ok(sites) => SiteBox::new(alloc, sites, SiteId(0), 4),
        Err(_) => Err(AllocError),
    }
}

/// Gives the inputs in turn. Stops the test where one ends otherwise.
fn run<A: Allocator + Copy>(
    rt: &impl Abort,
    site: &mut SiteBox<A>,
    inputs: &[(Given, Stamp, Result<Told, BoxFault>)],
) {
    'inputs: for (given, source, expected) in inputs {
        let told = give(site, given, *source);
        assert_eq!(rt; told, *expected);
    }
}

fn give<A: Allocator + Copy>(
    site: &mut SiteBox<A>,
    given: &Given,
    source: Stamp,
) -> Result<Told, BoxFault> {
    parts_of(site.take(input_of(given), source))
}

fn parts_of(taken: Result<Receipt, BoxFault>) -> Result<Told, BoxFault> {
    match taken {
        Ok(receipt) => Ok((
            receipt.site().0,
            receipt.index(),
            receipt.asked_access(),
            receipt.answer(),
        )),
        Err(fault) => Err(fault),
    }
}

fn input_of<A: Allocator + Copy>(given: &Given) -> Input<A> {
    match *given {
        Given::Load(offset) => Input::Load { at: 0, offset },
        Given::Store(offset, byte) => Input::Store {
            at: 0,
            offset,
            byte,
        },
        Given::Tick => Input::Tick,
        Given::Ask(index) => Input::Deliver(Envelope {
            from: SiteId(1),
            to: SiteId(0),
            message: Message::Of {
                page: PageId {
                    seg: SegId(0),
                    index,
                },
                note: Note::ToBook(BookNote::Ask {
                    request: 1,
                    kind: Kind::Read,
                }),
            },
        }),
    }
}

/// How many steps the log has, and the clock.
fn look<A: Allocator + Copy>(site: &SiteBox<A>) -> (usize, u64) {
    (site.log().len(), site.clock())
}
