use super::run_over;

/// What is typed is answered, and a wrong line doesn't end it.
#[test]
fn a_dialog(rt: HostRuntime) {
    let mut reader = b"sites 1 preset 1\nstore 0 0 0 7\nnonsense\nload 0 0 0\nquit\n".as_slice();
    let ran = run_over(&rt, &["shmdbg", "prompt"], &mut reader);
    assert_eq!(rt; ran.status, 0);
    assert!(rt; ran.out.as_slice().starts_with(b"1 ready\n2 stored\n"));
    assert!(rt; ran.out.as_slice().ends_with(b"3 byte 7\n"));
    assert_eq!(rt; ran.errors.as_slice(), b"".as_slice());
}

/// A file that can't be written or read is told so, and what stands stays.
#[test]
fn files_that_are_nowhere(rt: HostRuntime) {
    let mut reader = b"sites 1\nnote a\nnotes /nowhere/a\nopen /nowhere/b\ntick 0\n".as_slice();
    let ran = run_over(&rt, &["shmdbg", "prompt"], &mut reader);
    assert_eq!(rt; ran.status, 0);
    let told =
        b"1 ready\n1 noted\nnot saved: /nowhere/a can't be written\nnot opened: /nowhere/b can't be read\n2 took\n";
    assert_eq!(rt; ran.out.as_slice(), told.as_slice());
}
