use shm_attach::{Attached, BeginFault, CallBook, Op, Reply};
use shm_model::Cred;
use shm_place::SegId;
use std::process::Abort;

fn an_attach() -> Op {
    let cred = Cred { uid: 1, gid: 1 };
    Op::Attach {
        cred,
        id: SegId(4),
        ro: true,
    }
}

fn a_detach() -> Op {
    Op::Detach { id: SegId(4) }
}

/// Stops the test where a call begins otherwise.
fn expect_begun(
    rt: &impl Abort,
    begun: Result<u64, BeginFault>,
    expected: Result<u64, BeginFault>,
) {
    assert_eq!(rt; begun, expected);
}

/// Stops the test where a reply ends another call.
fn expect_ended(rt: &impl Abort, call: Option<Op>, expected: Option<Op>) {
    assert_eq!(rt; call, expected);
}

/// Stops the test where another call is outstanding.
fn expect_outstanding(rt: &impl Abort, call: Option<(u64, Op)>, expected: Option<(u64, Op)>) {
    assert_eq!(rt; call, expected);
}

#[test]
fn a_call_ends_once(rt: HostRuntime) {
    let mut book = CallBook::new();
    expect_begun(&rt, book.begin(a_detach()), Ok(1));
    expect_begun(&rt, book.begin(an_attach()), Err(BeginFault::Busy));
    expect_ended(&rt, book.reply(2, &Reply::Ok), None);
    expect_outstanding(&rt, book.copy().outstanding(), Some((1, a_detach())));
    expect_ended(&rt, book.reply(1, &Reply::Ok), Some(a_detach()));
    expect_ended(&rt, book.reply(1, &Reply::Ok), None);
    expect_outstanding(&rt, book.outstanding(), None);
    expect_begun(&rt, book.begin(an_attach()), Ok(2));
}

#[test]
fn a_reply_of_another_form_is_ignored(rt: HostRuntime) {
    let mut book = CallBook::new();
    expect_begun(&rt, book.begin(an_attach()), Ok(1));
    expect_ended(&rt, book.reply(1, &Reply::Ok), None);
    for size in [0, 1_048_577] {
        let reply = Reply::Attached(Attached { size, ro: true });
        expect_ended(&rt, book.reply(1, &reply), None);
    }
    let attached = Attached {
        size: 1_048_576,
        ro: true,
    };
    expect_ended(
        &rt,
        book.reply(1, &Reply::Attached(attached)),
        Some(an_attach()),
    );
}
