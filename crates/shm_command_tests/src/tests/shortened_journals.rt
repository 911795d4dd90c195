//! Journals that are made shorter, in the folder that the tests run in.
use super::journals::{BLANK, HEADER, MISSING, STORE, UNMARKED, audit_alone, site_kept};
use super::{expect, run_over};
use crate::tests::Ran;
use crate::tests::marked_journals::marked;
use shm_command::Lock;
use std::fs;
use std::process::Abort;
use std::rt::{Clock, Files};
use std::sync::Wait;
use std::test::Fail;
use std::thread::Threads;

const JOURNAL: &str = "long.journal";

const OTHER: &str = "other.journal";

fn shorten<R: AllocGlobal + Clock + Files + Threads + Wait + Copy + Send + Sync + 'static>(
    rt: &R,
    name: &str,
) -> Ran
where
    R::File: Lock,
{
    let mut reader = b"unread".as_slice();
    run_over(rt, &["shmdbg", "shorten", name], &mut reader)
}

/// The journal becomes shorter, and the whole one is kept under this number. The site has what was stored.
fn expect_shorter<
    R: AllocGlobal + Abort + Clock + Files + Threads + Wait + Copy + Send + Sync + 'static,
>(rt: &R, number: u32) -> Result<(), Fail>
where
    R::File: Lock,
{
    let whole = fs::read(rt, JOURNAL)?;
    let ran = shorten(rt, JOURNAL);
    let is = fs::read(rt, JOURNAL)?.len();
    let kept = format!(in rt.alloc(); "{JOURNAL}.{number}")?;
    let told = format!(in rt.alloc(); "kept {kept}\nwas {}\nis {is}\n", whole.len())?;
    expect(rt, &ran, 0, told.as_bytes(), b"");
    let left = fs::read(rt, kept.as_str())?;
    assert_eq!(rt; left.as_slice(), whole.as_slice());
    let ran = site_kept(rt, false, JOURNAL, b"ask 0 b load 0 5\n");
    assert_eq!(rt; ran.out.as_slice(), b"tell 0 b byte 7\n".as_slice());
    Ok(())
}

/// A site goes on from what it had stored, and its shorter journal can be made shorter in turn. An audit takes all steps: a store, and a restart
/// and a load in each further life.
#[test]
fn a_site_goes_on_from_a_shorter_journal(rt: HostRuntime) -> Result<(), Fail> {
    let cases: [(u32, &[u8]); 2] = [
        (1, b"audit yes\nsteps 3\naccesses 2\nenvelopes 0\n"),
        (2, b"audit yes\nsteps 5\naccesses 3\nenvelopes 0\n"),
    ];
    let whole = marked(rt.alloc(), &[HEADER, STORE])?;
    fs::write(&rt, JOURNAL, whole.as_slice())?;
    'cases: for (number, told) in cases {
        expect_shorter(&rt, number)?;
        let ran = audit_alone(&rt, "1", JOURNAL);
        expect(&rt, &ran, 0, told, b"");
    }
    expect_unaudited(&rt)?;
    fs::remove_file(&rt, "long.journal.2")?;
    fs::remove_file(&rt, JOURNAL)?;
    Ok(())
}

/// Where the first file is one that leads to another state, or is missing, there is no audit.
fn expect_unaudited<
    R: AllocGlobal + Abort + Clock + Files + Threads + Wait + Copy + Send + Sync + 'static,
>(rt: &R) -> Result<(), Fail>
where
    R::File: Lock,
{
    let differing =
        b"shmdbg: long.journal: begins with another state than the file before it leads to\n".as_slice();
    let missing =
        b"shmdbg: long.journal: begins with a state; the files before it are missing\n".as_slice();
    let other = marked(rt.alloc(), &[HEADER, b"step 1 ask 0 a store 0 5 8\n"])?;
    fs::write(rt, "long.journal.1", other.as_slice())?;
    expect(rt, &audit_alone(rt, "1", JOURNAL), 1, b"", differing);
    fs::remove_file(rt, "long.journal.1")?;
    expect(rt, &audit_alone(rt, "1", JOURNAL), 1, b"", missing);
    Ok(())
}

/// A file that is no journal stays as it was, and has no other name.
#[test]
fn what_is_no_journal_stays(rt: HostRuntime) -> Result<(), Fail> {
    let wrong = b"shmdbg: journal: line 2: no entry of this site\n".as_slice();
    let no_header = b"shmdbg: journal: line 1: no entry of this site\n".as_slice();
    let cases: [(&[&[u8]], &[u8]); 3] = [
        (&[HEADER, b"step 9 restart\n"], wrong),
        (&[b"journal 3 3 1\n"], no_header),
        (&[b"state calls 3\n"], no_header),
    ];
    'cases: for (batches, errors) in cases {
        let bytes = marked(rt.alloc(), batches)?;
        fs::write(&rt, OTHER, bytes.as_slice())?;
        let ran = shorten(&rt, OTHER);
        expect(&rt, &ran, 1, b"", errors);
        let left = fs::read(&rt, OTHER)?;
        assert_eq!(rt; left.as_slice(), bytes.as_slice());
        assert!(rt; fs::read(&rt, "other.journal.1").is_err());
        assert!(rt; fs::read(&rt, "other.journal.new").is_err());
    }
    fs::write(&rt, OTHER, b"".as_slice())?;
    expect(&rt, &shorten(&rt, OTHER), 1, b"", BLANK);
    fs::write(&rt, OTHER, b"journal 1 0 1\nstep 1 restart\n".as_slice())?;
    expect(&rt, &shorten(&rt, OTHER), 1, b"", UNMARKED);
    fs::remove_file(&rt, OTHER)?;
    expect(&rt, &shorten(&rt, OTHER), 1, b"", MISSING);
    Ok(())
}
