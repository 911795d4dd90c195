use super::expect_stat;
use crate::tests::expect;
use shm_keys::{Cred, Mode, SegTable, Stat};
use shm_place::{Key, SegId, SiteId, Sites};
use std::test::Fail;

const ANYONE: Cred = Cred { uid: 10, gid: 20 };

#[test]
fn segment_0_is_made_at_site_0(rt: HostRuntime) -> Result<(), Fail> {
    let sites = Sites::new(3).ok().ok_or("three sites")?;
    let home = SiteId(0);
    let other = SiteId(1);
    assert!(rt; home.0 < sites.count());
    assert!(rt; other.0 < sites.count());
    let table = SegTable::preset(rt.alloc(), home, sites, 2)?;
    let expected = Stat {
        key: Key(0),
        uid: 0,
        gid: 0,
        cuid: 0,
        cgid: 0,
        mode: Mode::ALL_READ_WRITE,
        size: 8192,
        nattch: 3,
        marked: false,
    };
    expect_stat(&rt, table.stat(ANYONE, SegId(0)), expected);
    drop(table);
    let empty = SegTable::preset(rt.alloc(), other, sites, 2)?;
    expect(&rt, empty.stat(ANYONE, SegId(1)).is_err());
    drop(empty);
    Ok(())
}
