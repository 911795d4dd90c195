//! Files of which no contract speaks: the journals of two sites, a journal that another process has, and the logs of a run.
use super::marked_journals::marked;
use super::{expect, run_over};
use shm_command::Lock;
use std::fs::{self, OpenOptions};
use std::test::Fail;

/// The batches in the journals of two sites, which share a page: site 0 stores to it, site 1 ticks.
const FIRST: [&[u8]; 2] = [b"journal 2 0 1\n", b"step 1 ask 0 a store 0 5 7\n"];

const SECOND: [&[u8]; 3] = [
    b"journal 2 1 1\n",
    b"step 1 ask 1 b tick\n",
    b"step 2 env 0 1 1 0 0 clear 0 0 1\n",
];

/// The first journal with a block, and behind it an envelope that site 1 never sent.
const INVENTED: [&[u8]; 3] = [
    b"journal 2 0 1\n",
    b"step 1 ask 0 a write 0 5 Bwk=\n",
    b"step 3 env 1 0 2 1 0 confirm 0 0 1\n",
];

/// A block's entry has many steps, and is one line. The site that lacks the step is named.
#[test]
fn a_cause_behind_a_block_is_told_with_its_line(rt: HostRuntime) -> Result<(), Fail> {
    let first = marked(rt.alloc(), &INVENTED)?;
    fs::write(&rt, "block.journal", first.as_slice())?;
    let second = marked(rt.alloc(), &SECOND[..2])?;
    fs::write(&rt, "other.journal", second.as_slice())?;
    let mut reader = b"".as_slice();
    let ran = run_over(
        &rt,
        &[
            "shmdbg",
            "audit",
            "--sites",
            "2",
            "block.journal",
            "other.journal",
        ],
        &mut reader,
    );
    let no = b"shmdbg: audit no: unsent 0 2: block.journal: line 3\n\
        shmdbg: site 1 lacks the step at clock 2: its journal may be an older copy\n"
        .as_slice();
    expect(&rt, &ran, 4, b"".as_slice(), no);
    fs::remove_file(&rt, "block.journal")?;
    fs::remove_file(&rt, "other.journal")?;
    Ok(())
}

/// The second journal as one of a cluster with a name.
const NAMED: [&[u8]; 1] = [b"journal 2 1 1 @plant-7\n"];

/// Each journal is read, in its turn, and stays as it was. A cause is told with the file and the line in which it stands. Site 0 lacks no step: it
/// has one of that clock, which sent nothing.
#[test]
fn two_journals_are_audited(rt: HostRuntime) -> Result<(), Fail> {
    let first = marked(rt.alloc(), &FIRST)?;
    fs::write(&rt, "first.journal", first.as_slice())?;
    let yes = "audit yes\nsteps 2\naccesses 1\nenvelopes 0\n";
    let no = "shmdbg: audit no: unsent 1 1: second.journal: line 3\n";
    let order = "shmdbg: not one set of journals\n";
    let cluster = "shmdbg: second.journal: of another cluster than the first journal\n";
    let unnamed = "shmdbg: first.journal: of another cluster than the first journal\n";
    let cases: [(&[&[u8]], &str, &str, u8, &str, &str); 5] = [
        (&SECOND[..2], "first.journal", "second.journal", 0, yes, ""),
        (
            &SECOND[..2],
            "second.journal",
            "first.journal",
            1,
            "",
            order,
        ),
        (&SECOND, "first.journal", "second.journal", 4, "", no),
        (&NAMED, "first.journal", "second.journal", 1, "", cluster),
        (&NAMED, "second.journal", "first.journal", 1, "", unnamed),
    ];
    for (batches, one, other, status, told, errors) in cases {
        let second = marked(rt.alloc(), batches)?;
        fs::write(&rt, "second.journal", second.as_slice())?;
        let mut reader = b"".as_slice();
        let ran = run_over(
            &rt,
            &["shmdbg", "audit", "--sites", "2", one, other],
            &mut reader,
        );
        expect(&rt, &ran, status, told.as_bytes(), errors.as_bytes());
        let left = fs::read(&rt, "second.journal")?;
        assert_eq!(rt; left.as_slice(), second.as_slice());
        let left = fs::read(&rt, "first.journal")?;
        assert_eq!(rt; left.as_slice(), first.as_slice());
    }
    fs::remove_file(&rt, "first.journal")?;
    fs::remove_file(&rt, "second.journal")?;
    Ok(())
}

/// While a journal is taken no process has it: nothing is told, and the file stays as it was.
#[test]
fn a_journal_that_is_taken(rt: HostRuntime) -> Result<(), Fail> {
    let name = "taken.journal";
    let bytes = marked(rt.alloc(), &[b"journal 1 0 1\n"])?;
    fs::write(&rt, name, bytes.as_slice())?;
    let held = OpenOptions::new().read(true).append(true).open(&rt, name)?;
    assert!(rt; held.lock_alone().is_ok());
    let mut reader = b"ask 0 a store 0 5 7\n".as_slice();
    let words = [
        "shmdbg",
        "site",
        "--sites=1",
        "--me=0",
        "--preset=1",
        "--journal",
        name,
    ];
    let ran = run_over(&rt, &words, &mut reader);
    drop(held);
    expect(
        &rt,
        &ran,
        3,
        b"",
        b"shmdbg: journal: another process has it\n",
    );
    let left = fs::read(&rt, name)?;
    assert_eq!(rt; left.as_slice(), bytes.as_slice());
    fs::remove_file(&rt, name)?;
    Ok(())
}

/// Each site's log is saved under the site's name, in the place of what was there. A run that fails leaves that as it was.
#[test]
fn the_logs_of_a_run_are_saved(rt: HostRuntime) -> Result<(), Fail> {
    let logs = [
        ("./site-0.log", " store 0 0 0 7 > stored"),
        ("./site-1.log", " load 1 0 0 > "),
    ];
    for (name, _step) in logs {
        fs::write(&rt, name, b"old\n".as_slice())?;
    }
    let words = ["shmdbg", "run", "--sites", "2", "--seed", "1", "--log", "."];
    let mut wrong = b"preset 257\n".as_slice();
    let failed = run_over(&rt, &words, &mut wrong);
    assert_eq!(rt; failed.status, 1);
    for (name, _step) in logs {
        let left = fs::read(&rt, name)?;
        assert_eq!(rt; left.as_slice(), b"old\n".as_slice(), "{name}");
    }
    let mut reader = b"preset 1\nstore 0 0 7\nload 1 0\n".as_slice();
    let ran = run_over(&rt, &words, &mut reader);
    assert_eq!(rt; (ran.status, ran.errors.as_slice()), (0, b"".as_slice()));
    for (name, step) in logs {
        let saved = fs::read(&rt, name)?;
        let text = std::str::from_utf8(saved.as_slice()).unwrap_or("");
        assert!(rt; text.contains(step) && !text.contains("old"), "{name}");
        fs::remove_file(&rt, name)?;
    }
    Ok(())
}
