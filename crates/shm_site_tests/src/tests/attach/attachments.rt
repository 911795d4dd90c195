use crate::tests::expect;
use shm_attach::Attachments;
use shm_place::SegId;
use std::process::Abort;

fn sixty_four() -> Attachments {
    let mut attachments = Attachments::new();
    for id in 100..164 {
        attachments.put(SegId(id), 1, false);
    }
    attachments
}

/// Stops the test where another segment was found.
fn expect_segment(rt: &impl Abort, found: Option<SegId>, expected: Option<SegId>) {
    assert_eq!(rt; found, expected);
}

/// Stops the test where another number was given.
fn expect_number(rt: &impl Abort, given: Option<u32>, expected: Option<u32>) {
    assert_eq!(rt; given, expected);
}

#[test]
fn sixty_four_stand_under_rising_numbers(rt: HostRuntime) {
    let attachments = sixty_four();
    for number in 0..64 {
        expect_segment(&rt, attachments.segment(number), Some(SegId(number + 100)));
    }
    expect_segment(&rt, attachments.segment(64), None);
}

#[test]
fn the_least_free_number_is_given_again(rt: HostRuntime) {
    let mut attachments = sixty_four();
    expect_number(&rt, attachments.put(SegId(7), 1, false), None);
    for (number, segment) in [
        (5, Some(SegId(105))),
        (5, None),
        (3, Some(SegId(103))),
        (64, None),
    ] {
        expect_segment(&rt, attachments.take(number), segment);
        expect_segment(&rt, attachments.segment(number), None);
    }
    let copy = attachments.copy();
    expect_number(&rt, attachments.put(SegId(7), 1, false), Some(3));
    expect(&rt, attachments.names(SegId(7)));
    expect(&rt, !copy.names(SegId(7)));
    expect_segment(&rt, copy.segment(5), None);
}
