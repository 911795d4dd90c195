use super::{expect_answer, expect_attached, expect_made, expect_no_stat, expect_stat, make_lone};
use crate::tests::expect;
use shm_keys::{Attached, Cred, Errno, Mode, Stat};
use shm_place::Key;
use std::test::Fail;

const A: Cred = Cred { uid: 10, gid: 20 };

const B: Cred = Cred { uid: 11, gid: 21 };

const G: Cred = Cred { uid: 11, gid: 20 };

const CREAT: u32 = 0o1000;

const EXCL: u32 = 0o2000;

#[test]
fn a_key_is_found_and_checked_in_order(rt: HostRuntime) -> Result<(), Fail> {
    let mut table = make_lone(rt.alloc())?;
    for (cred, key, size, mode, flags, expected) in [
        (A, 5, 0, 0o600, CREAT, Err(Errno::Einval)),
        (A, 5, 300, 0o600, 0, Err(Errno::Enoent)),
        (A, 5, 300, 0o600, EXCL, Err(Errno::Enoent)),
        (A, 5, 300, 0o600, CREAT, Ok(0)),
        (A, 5, 300, 0o600, CREAT | EXCL, Err(Errno::Eexist)),
        (A, 5, 0, 0, 0, Ok(0)),
        (B, 5, 301, 0o600, 0, Err(Errno::Einval)),
        (B, 5, 300, 0o400, 0, Err(Errno::Eacces)),
        (A, 0, 1, 0o600, 0, Ok(1)),
        (A, 0, 1, 0o600, 0, Ok(2)),
        (A, 6, 1_048_577, 0o600, CREAT, Err(Errno::Einval)),
        (A, 6, 1_048_576, 0o600, CREAT, Ok(3)),
    ] {
        let answer = table.get(cred, key, size, mode, flags);
        expect_made(&rt, answer, expected);
    }
    drop(table);
    Ok(())
}

#[test]
fn one_class_of_bits_counts(rt: HostRuntime) -> Result<(), Fail> {
    let mut table = make_lone(rt.alloc())?;
    expect_made(&rt, table.get(A, 5, 256, 0o640, CREAT), Ok(0));
    for (cred, ro, expected) in [
        (
            A,
            false,
            Ok(Attached {
                size: 256,
                ro: false,
            }),
        ),
        (
            G,
            true,
            Ok(Attached {
                size: 256,
                ro: true,
            }),
        ),
        (G, false, Err(Errno::Eacces)),
        (B, true, Err(Errno::Eacces)),
    ] {
        expect_attached(&rt, table.attach(cred, 0, ro), expected);
    }
    expect_no_stat(&rt, table.stat_fault(B, 0), Errno::Eacces);
    expect_answer(&rt, table.set(G, 0, 11, 20, 0o600), Err(Errno::Eperm));
    expect_answer(&rt, table.set(A, 0, 11, 20, 0o600), Ok(()));
    expect(&rt, table.attach(A, 0, false).is_ok());
    expect(&rt, table.attach(G, 0, false).is_ok());
    let stat = Stat {
        key: Key(5),
        uid: 11,
        gid: 20,
        cuid: 10,
        cgid: 20,
        mode: Mode::OWNER_READ_WRITE,
        size: 256,
        nattch: 4,
        marked: false,
    };
    expect_stat(&rt, table.stat(G, 0), stat);
    drop(table);
    Ok(())
}
