use super::*;
use std::test::Fail;

fn sites(count: u32) -> Result<Sites, Fail> {
    Ok(Sites::new(count)?)
}

#[test]
fn pages_are_spread_over_the_sites(rt: HostRuntime) -> Result<(), Fail> {
    let three = sites(3)?;
    let manager = manager_of(three, last_page(SegId(4)));
    assert_eq!(rt; manager, SiteId(1));
    assert_eq!(rt; three.count(), 3);
    Ok(())
}

fn last_page(seg: SegId) -> PageId {
    PageId { seg, index: 255 }
}

#[test]
fn limits_are_exact(rt: HostRuntime) -> Result<(), Fail> {
    let two = sites(2)?;
    let inside = in_limits(two, last_page(SegId(131_071)));
    assert!(rt; inside);
    let outside = in_limits(two, last_page(SegId(131_072)));
    assert!(rt; !outside);
    assert!(rt; Sites::new(0).is_err());
    assert!(rt; Sites::new(17).is_err());
    Ok(())
}

#[test]
fn keys_and_identifiers_have_homes(rt: HostRuntime) -> Result<(), Fail> {
    let two = sites(2)?;
    assert_eq!(rt; home_of_key(two, SiteId(1), Key(0)), SiteId(1));
    assert_eq!(rt; home_of_key(two, SiteId(0), Key(3)), SiteId(1));
    assert_eq!(rt; home_of_id(two, SegId(5)), SiteId(1));
    Ok(())
}

#[test]
fn offsets_fall_into_pages(rt: HostRuntime) -> Result<(), Fail> {
    assert_eq!(rt; place(4095), (0, 4095));
    assert_eq!(rt; place(4096), (1, 0));
    assert_eq!(rt; rounded(1), 4096);
    assert_eq!(rt; rounded(1_048_576), 1_048_576);
    Ok(())
}
