use shm_attach::{Attachments, Denied, right};
use shm_place::{PageId, SegId};

fn two() -> Attachments {
    let mut attachments = Attachments::new();
    attachments.put(SegId(8), 4097, true);
    attachments.put(SegId(9), 1, false);
    attachments
}

fn place(seg: u32, index: u32, within: usize) -> (PageId, usize) {
    let page = PageId {
        seg: SegId(seg),
        index,
    };
    (page, within)
}

#[test]
fn every_offset_of_a_page_is_reached(rt: HostRuntime) {
    let attachments = two();
    assert_eq!(rt; right(&attachments, 0, 8191, false), Ok(place(8, 1, 4095)));
    assert_eq!(rt; right(&attachments, 1, 4095, true), Ok(place(9, 0, 4095)));
}

#[test]
fn the_attachment_is_checked_before_the_offset(rt: HostRuntime) {
    let attachments = two();
    for (number, for_store, denied) in [
        (2, true, Denied::NoAttachment),
        (0, true, Denied::ReadOnly),
        (0, false, Denied::OutOfSegment),
        (1, true, Denied::OutOfSegment),
    ] {
        let answer = right(&attachments, number, 8192, for_store);
        assert_eq!(rt; answer, Err(denied), "through attachment {number}");
    }
}
