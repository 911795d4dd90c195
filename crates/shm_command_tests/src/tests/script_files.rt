//! Scripts that lie in files, in the folder that the tests run in.
use super::{expect, run_over};
use std::fs;
use std::test::Fail;

/// A file that is named is replayed and drawn, and the input isn't read.
#[test]
fn a_file_is_replayed_and_drawn(rt: HostRuntime) -> Result<(), Fail> {
    let name = "one.shm";
    fs::write(&rt, name, b"sites 1 preset 1\nstore 0 0 0 7\nload 0 0 0\n")?;
    let mut reader = b"left alone\n".as_slice();
    let ran = run_over(&rt, &["shmdbg", "replay", name], &mut reader);
    expect(&rt, &ran, 0, b"1 ready\n2 stored\n3 byte 7\n", b"");
    let words = ["shmdbg", "draw", "--page", "0", "0", name];
    let ran = run_over(&rt, &words, &mut reader);
    assert_eq!(rt; ran.status, 0);
    assert!(rt; ran.out.as_slice().starts_with(b"<svg"));
    assert_eq!(rt; reader, b"left alone\n".as_slice());
    fs::remove_file(&rt, name)?;
    Ok(())
}

/// What gives no script is told under its name, and a wrong line is shown.
#[test]
fn files_that_are_refused(rt: HostRuntime) -> Result<(), Fail> {
    let name = "wrong.shm";
    fs::write(&rt, name, b"sites 1\n# mine\n")?;
    let wrong: &[u8] = b"shmdbg: line 2: bad line\n# mine\n";
    let missing: &[u8] = b"shmdbg: none.shm: there is no such file\n";
    let folder: &[u8] = b"shmdbg: .: it is a folder\n";
    let cases = [
        ("replay", name, 1, b"1 ready\n".as_slice(), wrong),
        ("draw", name, 1, b"".as_slice(), wrong),
        ("replay", "none.shm", 3, b"".as_slice(), missing),
        ("draw", "none.shm", 3, b"".as_slice(), missing),
        ("replay", ".", 3, b"".as_slice(), folder),
    ];
    for (verb, file, status, out, errors) in cases {
        let mut reader = b"sites 1\n".as_slice();
        let ran = run_over(&rt, &["shmdbg", verb, file], &mut reader);
        assert_eq!(rt; (ran.status, ran.out.as_slice()), (status, out));
        assert!(rt; ran.errors.as_slice().starts_with(errors));
        assert_eq!(rt; reader, b"sites 1\n".as_slice());
    }
    fs::remove_file(&rt, name)?;
    Ok(())
}
