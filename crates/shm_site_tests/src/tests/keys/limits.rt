use super::{expect_gone, expect_id, expect_made, expect_next, expect_no_stat, make_lone};
use crate::tests::expect;
use shm_keys::{Cred, Errno, GetFlags, Mode, SegTable};
use shm_place::{Key, SegId, SiteId, Sites};
use std::test::Fail;

const ROOT: Cred = Cred { uid: 0, gid: 0 };

#[test]
fn a_home_has_so_many_at_a_time(rt: HostRuntime) -> Result<(), Fail> {
    let mut table = make_lone(rt.alloc())?;
    for id in 0..64 {
        expect_made(&rt, table.get(ROOT, 0, 1, 0o600, 0), Ok(id));
    }
    expect_made(&rt, table.get(ROOT, 0, 1, 0o600, 0), Err(Errno::Enospc));
    expect_made(&rt, table.get(ROOT, 0, 0, 0o600, 0), Err(Errno::Einval));
    expect_made(&rt, table.get(ROOT, 9, 1, 0o600, 0), Err(Errno::Enoent));
    expect_gone(&rt, table.remove(ROOT, 0), Ok(Some(SegId(0))));
    expect_made(&rt, table.get(ROOT, 0, 1, 0o600, 0), Ok(64));
    expect_no_stat(&rt, table.stat_fault(ROOT, 0), Errno::Eidrm);
    expect_no_stat(&rt, table.stat_fault(ROOT, 70), Errno::Einval);
    expect_gone(&rt, table.detach(1), Err(Errno::Einval));
    expect(&rt, table.attach(ROOT, 1, false).is_ok());
    expect_gone(&rt, table.remove(ROOT, 1), Ok(None));
    expect_gone(&rt, table.remove(ROOT, 1), Ok(None));
    expect_made(&rt, table.get(ROOT, 0, 1, 0o600, 0), Err(Errno::Enospc));
    expect_gone(&rt, table.detach(1), Ok(Some(SegId(1))));
    expect_made(&rt, table.get(ROOT, 0, 1, 0o600, 0), Ok(65));
    drop(table);
    Ok(())
}

#[test]
fn identifiers_go_by_the_number_of_sites(rt: HostRuntime) -> Result<(), Fail> {
    let sites = Sites::new(2).ok().ok_or("two sites")?;
    let home = SiteId(1);
    assert!(rt; home.0 < sites.count());
    let mut table = SegTable::new(rt.alloc(), home, sites);
    for id in [1, 3, 5] {
        let answer = table.get(ROOT, Key(0), 1, Mode::OWNER_READ_WRITE, GetFlags(0));
        expect_id(&rt, answer, id);
    }
    drop(table);
    Ok(())
}

#[test]
fn a_home_makes_so_many_ever(rt: HostRuntime) -> Result<(), Fail> {
    let mut table = make_lone(rt.alloc())?;
    for id in 0..65_536 {
        expect_made(&rt, table.get(ROOT, 0, 1, 0o600, 0), Ok(id));
        expect_gone(&rt, table.remove(ROOT, id), Ok(Some(SegId(id))));
    }
    expect_made(&rt, table.get(ROOT, 0, 1, 0o600, 0), Err(Errno::Enospc));
    expect(&rt, table.on_purged(65_535));
    expect(&rt, !table.on_purged(65_535));
    expect_next(&rt, table.next_purge(Some(SegId(65_534))), None);
    drop(table);
    Ok(())
}
