//! What `shmdbg journal` tells of files in the folder that the tests run in.
use super::{expect, run_over};
use crate::tests::Ran;
use crate::tests::marked_journals::marked;
use shm_command::Lock;
use std::fs;
use std::rt::{Clock, Files};
use std::sync::Wait;
use std::test::Fail;
use std::thread::Threads;

/// Asks for what the journal of this name has; standard input isn't read.
fn summarize<R: AllocGlobal + Clock + Files + Threads + Wait + Copy + Send + Sync + 'static>(
    rt: &R,
    name: &str,
) -> Ran
where
    R::File: Lock,
{
    let mut reader = b"unread".as_slice();
    run_over(rt, &["shmdbg", "journal", name], &mut reader)
}

/// A journal of two steps, with a torn end; the file stays as it was.
#[test]
fn what_a_journal_has(rt: HostRuntime) -> Result<(), Fail> {
    let name = "summed.journal";
    let (header, store) = (
        b"journal 3 1 4\n".as_slice(),
        b"step 1 ask 1 a store 0 5 7\n".as_slice(),
    );
    let wrong = b"shmdbg: summed.journal: line 3: bad line\n".as_slice();
    let told =
        b"site 1\nsites 3\npages 4\nsteps 2\nclock 2\nbytes 484\ntorn 8\nbatches 3\n".as_slice();
    let cases: [(&[u8], u8, &[u8], &[u8]); 2] = [
        (b"step 9 restart\n", 1, b"", wrong),
        (b"step 2 restart\n", 0, told, b""),
    ];
    for (restart, status, told, errors) in cases {
        let mut bytes = marked(rt.alloc(), &[header, store, restart])?;
        bytes.extend_from_slice(b"step 3 a")?;
        fs::write(&rt, name, bytes.as_slice())?;
        let ran = summarize(&rt, name);
        expect(&rt, &ran, status, told, errors);
        let kept = fs::read(&rt, name)?;
        assert_eq!(rt; kept.as_slice(), bytes.as_slice());
    }
    fs::remove_file(&rt, name)?;
    Ok(())
}

/// A journal without a step, and files that are none.
#[test]
fn what_files_have(rt: HostRuntime) -> Result<(), Fail> {
    let name = "none.journal";
    let first = b"shmdbg: none.journal: line 1: bad line\n".as_slice();
    let unmarked =
        b"shmdbg: none.journal: its batches have no marks: an earlier version kept it\n".as_slice();
    let none =
        b"site 0\nsites 2\npages 1\nsteps 0\nclock 0\nbytes 154\ntorn 0\nbatches 1\n".as_slice();
    let named =
        b"site 0\nsites 2\npages 1\ncluster north\nsteps 0\nclock 0\nbytes 161\ntorn 0\nbatches 1\n".as_slice();
    let cases: [(&[&[u8]], &[u8], u8, &[u8], &[u8]); 7] = [
        (&[b"journal 2 0 1\n"], b"", 0, none, b""),
        (&[b"journal 2 0 1 @north\n"], b"", 0, named, b""),
        (&[], b"", 1, b"", first),
        (&[], b"journal 2 0 1\n", 1, b"", first),
        (&[b"journal 2 2 1\n"], b"", 1, b"", first),
        (&[b"journal 17 0 1\n"], b"", 1, b"", first),
        (&[], b"journal 2 0 1\nstep 1 restart\n", 1, b"", unmarked),
    ];
    for (batches, behind, status, told, errors) in cases {
        let mut bytes = marked(rt.alloc(), batches)?;
        bytes.extend_from_slice(behind)?;
        fs::write(&rt, name, bytes.as_slice())?;
        let ran = summarize(&rt, name);
        expect(&rt, &ran, status, told, errors);
    }
    fs::remove_file(&rt, name)?;
    let ran = summarize(&rt, name);
    let missing = b"shmdbg: none.journal: it can't be opened\n";
    expect(&rt, &ran, 3, b"", missing);
    Ok(())
}
