//! Segment calls of a single site, which is their home.
use super::{Given, Sent, expect, new_site, preset_site, run};
use shm_model::{Attached, Cred, GetFlags, Mode, Op, Reply, Request};
use shm_place::{Key, SegId};
use shm_site::{Answer, Site};
use std::alloc::Allocator;
use std::process::Abort;
use std::test::Fail;

const ROOT: Cred = Cred { uid: 0, gid: 0 };

const ATTACH: Given = Given::Begin(Request::Op(Op::Attach {
    cred: ROOT,
    id: SegId(0),
    ro: true,
}));

const GET: Given = Given::Begin(Request::Op(Op::Get {
    cred: ROOT,
    key: Key(5),
    size: 1,
    mode: Mode::OWNER_READ_WRITE,
    flags: GetFlags(0o1000),
}));

/// An attach of this number gave attachment `attachment`.
fn attach_answer(number: u64, attachment: u32) -> Answer {
    Answer::Replied {
        number,
        reply: Reply::Attached(Attached {
            size: 16_384,
            ro: true,
        }),
        attachment: Some(attachment),
    }
}

/// Call 64 was a detach.
const DETACHED: Answer = Answer::Replied {
    number: 64,
    reply: Reply::Ok,
    attachment: None,
};

/// Call 1 made segment 0.
const MADE: Answer = Answer::Replied {
    number: 1,
    reply: Reply::Id(SegId(0)),
    attachment: None,
};

/// With 64 attachments an attach is refused before it begins. A detach names an attachment that stands.
const FULL: [(Given, Answer); 9] = [
    (ATTACH, Answer::Refused(12)),
    (Given::Begin(Request::DetachAt(17)), Answer::Began(64)),
    (ATTACH, Answer::Refused(8)),
    (Given::Last, Answer::Took),
    (Given::Last, DETACHED),
    (Given::Begin(Request::DetachAt(17)), Answer::Refused(9)),
    (Given::Begin(Request::DetachAt(64)), Answer::Refused(9)),
    (
        Given::Begin(Request::Op(Op::Detach { id: SegId(0) })),
        Answer::Refused(9),
    ),
    (ATTACH, Answer::Began(65)),
];

#[test]
fn sixty_four_attachments_are_most(rt: HostRuntime) -> Result<(), Fail> {
    let mut site = preset_site(rt.alloc(), 1, 0)?;
    let mut outbox = Vec::new(rt.alloc());
    attach_all(&rt, &mut site, &mut outbox);
    run(&rt, &mut site, &mut outbox, &FULL);
    let freed = [
        (Given::Last, Answer::Took),
        (Given::Last, attach_answer(65, 17)),
    ];
    run(&rt, &mut site, &mut outbox, &freed);
    drop(outbox);
    drop(site);
    Ok(())
}

/// Attaches segment 0 sixty-three times more: call and attachment have the same number.
fn attach_all<A: Allocator + Copy>(rt: &impl Abort, site: &mut Site<A>, outbox: &mut Sent<A>) {
    'attachments: for number in 1..64 {
        let call = number as u64;
        let inputs = [
            (ATTACH, Answer::Began(call)),
            (Given::Last, Answer::Took),
            (Given::Last, attach_answer(call, number)),
        ];
        run(rt, site, outbox, &inputs);
    }
}

/// The call is outstanding still, and a tick sends it again.
const AFTER_RESTART: [(Given, Answer); 6] = [
    (Given::Restart, Answer::Took),
    (GET, Answer::Refused(8)),
    (Given::Tick, Answer::Took),
    (Given::Last, Answer::Took),
    (Given::Last, MADE),
    (GET, Answer::Began(2)),
];

#[test]
fn a_call_outlives_a_restart(rt: HostRuntime) -> Result<(), Fail> {
    let mut site = new_site(rt.alloc())?;
    let mut outbox = Vec::new(rt.alloc());
    run(&rt, &mut site, &mut outbox, &[(GET, Answer::Began(1))]);
    outbox.clear();
    run(&rt, &mut site, &mut outbox, &AFTER_RESTART);
    expect(&rt, outbox.len() == 1);
    drop(outbox);
    drop(site);
    Ok(())
}
