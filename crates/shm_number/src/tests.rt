use crate::{Counter, KeptReply, Recall, Served, UsedUp};
use shm_model::Numbered;
use shm_place::SiteId;

#[test]
fn numbers_are_given_in_turn(rt: HostRuntime) {
    let mut counter = Counter::new();
    assert_eq!(rt; counter.next(), Ok(1));
    let mut copy = counter.copy();
    assert_eq!(rt; counter.next(), Ok(2));
    assert_eq!(rt; counter.next(), Ok(3));
    assert_eq!(rt; copy.next(), Ok(2));
}

#[test]
fn nothing_comes_after_the_greatest_number(rt: HostRuntime) {
    let mut counter = Counter::after(u64::MAX - 1);
    assert_eq!(rt; counter.next(), Ok(u64::MAX));
    for _ in 0..2 {
        assert_eq!(rt; counter.next(), Err(UsedUp));
    }
    assert_eq!(rt; UsedUp.number(), 13);
}

#[test]
fn only_a_greater_number_is_fresh(rt: HostRuntime) {
    let mut served = Served::new();
    assert!(rt; served.fresh(SiteId(15), 1));
    assert!(rt; !served.fresh(SiteId(15), 0));
    served.take(SiteId(15), 5);
    served.take(SiteId(15), 3);
    let copy = served.copy();
    for (number, fresh) in [(3, false), (5, false), (6, true), (u64::MAX, true)] {
        assert_eq!(rt; served.fresh(SiteId(15), number), fresh, "at {number}");
        assert_eq!(rt;
            copy.fresh(SiteId(15), number),
            fresh,
            "in the copy at {number}"
        );
    }
    assert!(rt; served.fresh(SiteId(14), 1));
}

#[test]
fn a_repeated_call_is_told_its_reply(rt: HostRuntime) {
    let mut replies = KeptReply::<u8>::new();
    assert_eq!(rt; replies.ask(SiteId(2), 0), Recall::Old);
    assert_eq!(rt; replies.ask(SiteId(2), 1), Recall::Fresh);
    replies.keep(SiteId(2), 7, 40);
    let copy = replies.copy();
    assert_eq!(rt; replies.ask(SiteId(2), 6), Recall::Old);
    assert_eq!(rt; replies.ask(SiteId(2), 7), Recall::Again(&40));
    assert_eq!(rt; replies.ask(SiteId(2), 8), Recall::Fresh);
    assert_eq!(rt; replies.ask(SiteId(3), 7), Recall::Fresh);
    assert_eq!(rt; copy.ask(SiteId(2), 7), Recall::Again(&40));
}
