use super::{expect_gone, expect_id, expect_made, expect_next, make_lone};
use crate::tests::expect;
use shm_keys::{Cred, GetFlags, Mode, SegTable};
use shm_place::{Key, SegId, SiteId, SiteSet, Sites};
use std::process::Abort;
use std::test::Fail;

const ROOT: Cred = Cred { uid: 0, gid: 0 };

#[test]
fn purges_come_by_rising_identifier(rt: HostRuntime) -> Result<(), Fail> {
    let mut table = make_lone(rt.alloc())?;
    for id in 0..3 {
        expect_made(&rt, table.get(ROOT, 0, 1, 0o600, 0), Ok(id));
    }
    expect_next(&rt, table.next_purge(None), None);
    expect_gone(&rt, table.remove(ROOT, 2), Ok(Some(SegId(2))));
    expect_gone(&rt, table.remove(ROOT, 0), Ok(Some(SegId(0))));
    for (after, expected) in [
        (None, Some(SegId(0))),
        (Some(SegId(0)), Some(SegId(2))),
        (Some(SegId(1)), Some(SegId(2))),
        (Some(SegId(2)), None),
    ] {
        expect_next(&rt, table.next_purge(after), expected);
    }
    expect(&rt, !table.on_purged(1));
    expect(&rt, table.on_purged(0));
    expect(&rt, !table.on_purged(0));
    expect_next(&rt, table.next_purge(None), Some(SegId(2)));
    drop(table);
    Ok(())
}

#[test]
fn each_site_purges_for_itself(rt: HostRuntime) -> Result<(), Fail> {
    let sites = Sites::new(3).ok().ok_or("three sites")?;
    let home = SiteId(0);
    assert!(rt; home.0 < sites.count());
    let mut table = SegTable::new(rt.alloc(), home, sites);
    let made = table.get(ROOT, Key(0), 1, Mode::OWNER_READ_WRITE, GetFlags(0));
    expect_id(&rt, made, 0);
    expect_gone(&rt, table.remove(ROOT, SegId(0)), Ok(Some(SegId(0))));
    expect(&rt, table.on_purged(SegId(0), SiteId(1)));
    let copy = table.copy()?;
    expect(&rt, table.on_purged(SegId(0), SiteId(0)));
    expect(&rt, table.on_purged(SegId(0), SiteId(2)));
    expect(&rt, table.next_purge(None).is_none());
    expect_purge(&rt, copy.next_purge(None), 0, [true, false, true, false]);
    drop(copy);
    drop(table);
    Ok(())
}

/// Stops the test where another segment is to be purged next, or other sites have yet to purge it.
fn expect_purge(rt: &impl Abort, next: Option<(SegId, SiteSet)>, id: u32, expected: [bool; 4]) {
    let Some((segment, missing)) = &next else {
        return expect(rt, false);
    };
    let sites = [
        missing.contains(SiteId(0)),
        missing.contains(SiteId(1)),
        missing.contains(SiteId(2)),
        missing.contains(SiteId(3)),
    ];
    assert_eq!(rt; (*segment, sites), (SegId(id), expected));
    expect(rt, !missing.is_empty());
}
