//! Journals in files, in the folder that the tests run in.
use super::{expect, run_over};
use crate::tests::Ran;
use crate::tests::marked_journals::marked;
use shm_command::Lock;
use std::fs;
use std::process::Abort;
use std::rt::{Clock, Files};
use std::sync::Wait;
use std::test::Fail;
use std::thread::Threads;

const JOURNAL: &str = "one.journal";

pub(super) const HEADER: &[u8] = b"journal 1 0 1\n";

pub(super) const STORE: &[u8] = b"step 1 ask 0 a store 0 5 7\n";

/// Both, in a batch each. These digests are those of `sha256sum`.
const STORED: &[u8] = b"journal 1 0 1\n\
    durable 1 0000000000000000000000000000000000000000000000000000000000000000 \
    dad2ec7f7ae0b0a448d15004bc9f5242c09062edbea7e63efe0d2965e949d0a8\n\
    step 1 ask 0 a store 0 5 7\n\
    durable 2 dad2ec7f7ae0b0a448d15004bc9f5242c09062edbea7e63efe0d2965e949d0a8 \
    5740bd3f032b843ee5efab4e109ed1180c890cdedf5358f81ac227564ebd7a3e\n";

/// The same, and a restart. The byte that was stored has changed.
const DAMAGED: &[u8] = b"journal 1 0 1\n\
    durable 1 0000000000000000000000000000000000000000000000000000000000000000 \
    dad2ec7f7ae0b0a448d15004bc9f5242c09062edbea7e63efe0d2965e949d0a8\n\
    step 1 ask 0 a store 0 5 8\n\
    durable 2 dad2ec7f7ae0b0a448d15004bc9f5242c09062edbea7e63efe0d2965e949d0a8 \
    5740bd3f032b843ee5efab4e109ed1180c890cdedf5358f81ac227564ebd7a3e\n\
    step 2 restart\n\
    durable 3 5740bd3f032b843ee5efab4e109ed1180c890cdedf5358f81ac227564ebd7a3e \
    a01e27a0ff7a3bdbda35bd3969ca1badf90bed60d97c731fbe16ce2b90f43d4e\n";

const EXISTING: &[u8] = b"shmdbg: journal: it is begun already: start the site without --new\n";

pub(super) const BLANK: &[u8] = b"shmdbg: journal: nothing is begun in it: --new begins it\n";

pub(super) const MISSING: &[u8] =
    b"shmdbg: journal: there is none of this name: --new begins one\n";

pub(super) const UNMARKED: &[u8] =
    b"shmdbg: journal: its batches have no marks: an earlier version kept it\n";

const NO_FILE: &[u8] = b"shmdbg: journal: it is no plain file\n";

/// The only site of one, with one page, that begins a journal in this file, or goes on with it.
pub(super) fn site_kept<
    R: AllocGlobal + Clock + Files + Threads + Wait + Copy + Send + Sync + 'static,
>(rt: &R, begins: bool, name: &str, lines: &[u8]) -> Ran
where
    R::File: Lock,
{
    let mut reader = lines;
    let words = [
        "shmdbg",
        "site",
        "--sites",
        "1",
        "--me",
        "0",
        "--preset",
        "1",
        "--journal",
        name,
        "--new",
    ];
    let given = if begins { 11 } else { 10 };
    run_over(rt, &words[..given], &mut reader)
}

pub(super) fn audit_alone<
    R: AllocGlobal + Clock + Files + Threads + Wait + Copy + Send + Sync + 'static,
>(rt: &R, sites: &str, name: &str) -> Ran
where
    R::File: Lock,
{
    let mut reader = b"".as_slice();
    let words = ["shmdbg", "audit", "--sites", sites, name];
    run_over(rt, &words, &mut reader)
}

/// A site stored one byte in a journal that it began, and tells its counts at the end.
fn expect_stored(rt: &impl Abort, ran: &Ran) {
    let counts =
        b"shmdbg: health steps 1 clock 1 taken 1 passed 0 waiting 0 received 0 sent 0 journal 41 since ";
    assert_eq!(rt; ran.status, 0);
    assert_eq!(rt; ran.out.as_slice(), b"tell 0 a stored\n".as_slice());
    assert!(rt; ran.errors.as_slice().starts_with(counts.as_slice()));
    assert!(rt;
        ran.errors.as_slice().ends_with(b" other-cluster 0 no-digest 0 wrong-digest 0\n".as_slice())
    );
}

/// A site with this journal tells nothing but why it is refused. The file stays as it was.
fn expect_refused<
    R: AllocGlobal + Abort + Clock + Files + Threads + Wait + Copy + Send + Sync + 'static,
>(rt: &R, name: &str, bytes: &[u8], begins: bool, errors: &[u8]) -> Result<(), Fail>
where
    R::File: Lock,
{
    fs::write(rt, name, bytes)?;
    let ran = site_kept(rt, begins, name, b"ask 0 a tick\n");
    expect(rt, &ran, 1, b"", errors);
    let kept = fs::read(rt, name)?;
    assert_eq!(rt; kept.as_slice(), bytes);
    Ok(())
}

/// What is stored outlives the process. Whatever stands behind the last whole batch is cut off: a front of a batch, zeros, more of them than a
/// line has, a mark of other lines. An audit accepts the journal.
#[test]
fn a_site_goes_on_from_its_journal(rt: HostRuntime) -> Result<(), Fail> {
    let _ = fs::remove_file(&rt, JOURNAL);
    let ran = site_kept(&rt, true, JOURNAL, b"ask 0 a store 0 5 7\n");
    expect_stored(&rt, &ran);
    let kept = fs::read(&rt, JOURNAL)?;
    assert_eq!(rt; kept.as_slice(), STORED);
    let zeros = vec![in rt.alloc(); 0u8; 9000]?;
    let batches = [
        HEADER,
        STORE,
        b"step 2 restart\n",
        b"step 3 ask 0 b load 0 5\n",
    ];
    let whole = marked(rt.alloc(), &batches)?;
    let cases: [(&[u8], &str); 4] = [
        (b"step 2 restart\nstep 3 ask 0 b lo", "32"),
        (&zeros[..100], "100"),
        (zeros.as_slice(), "9000"),
        (b"step 2 restart\ndurable 3 0 0\nstep 3 restart\n", "44"),
    ];
    for (behind, count) in cases {
        let mut broken = Vec::from_slice(rt.alloc(), STORED)?;
        broken.extend_from_slice(behind)?;
        fs::write(&rt, JOURNAL, broken.as_slice())?;
        let ran = site_kept(&rt, false, JOURNAL, b"ask 0 b load 0 5\n");
        let again = format!(in rt.alloc();
            "shmdbg: journal: steps taken again: 1, clock: 1, batches: 2, cut off {count} bytes that were never durable, in "
        )?;
        assert_eq!(rt; ran.out.as_slice(), b"tell 0 b byte 7\n".as_slice());
        assert!(rt;
            ran.errors.as_slice().starts_with(again.as_bytes()),
            "{count}"
        );
        let kept = fs::read(&rt, JOURNAL)?;
        assert_eq!(rt; kept.as_slice(), whole.as_slice());
    }
    let ran = audit_alone(&rt, "1", JOURNAL);
    let text = b"audit yes\nsteps 3\naccesses 2\nenvelopes 0\n";
    expect(&rt, &ran, 0, text, b"");
    fs::remove_file(&rt, JOURNAL)?;
    Ok(())
}

/// A journal that isn't this site's, and files that are none: nothing is told, and the file stays as it was.
#[test]
fn journals_that_are_refused(rt: HostRuntime) -> Result<(), Fail> {
    let name = "refused.journal";
    let none = b"shmdbg: journal: line 1: no entry of this site\n".as_slice();
    let cases: [(&[&[u8]], &[u8], bool, &[u8]); 9] = [
        (
            &[b"journal 1 0 2\n"],
            b"",
            false,
            b"shmdbg: journal: of another site, number of sites, opening or cluster\n",
        ),
        (
            &[HEADER, b"step 1 tock\n"],
            b"",
            false,
            b"shmdbg: journal: line 2: no entry of this site\n",
        ),
        (&[b"nonsense\n"], b"torn", true, none),
        (&[], b"nonsense\n", true, none),
        (&[], b"journal 2", true, none),
        (&[HEADER, STORE], b"", true, EXISTING),
        (&[HEADER], b"torn", true, EXISTING),
        (&[], b"", false, BLANK),
        (&[], b"journal 1 0 1\n", false, BLANK),
    ];
    for (batches, behind, begins, errors) in cases {
        let mut bytes = marked(rt.alloc(), batches)?;
        bytes.extend_from_slice(behind)?;
        expect_refused(&rt, name, bytes.as_slice(), begins, errors)?;
    }
    fs::remove_file(&rt, name)?;
    Ok(())
}

/// A journal in which a whole batch stands behind a broken one, and one that an earlier version kept: neither is begun or gone on with. An audit
/// refuses them too.
#[test]
fn journals_that_are_damaged_or_unmarked(rt: HostRuntime) -> Result<(), Fail> {
    let name = "damaged.journal";
    let mut twice = Vec::from_slice(rt.alloc(), STORED)?;
    twice.extend_from_slice(b"torn\ndurable 3 0 0\n")?;
    twice.extend_from_slice(STORED)?;
    let unmarked = b"journal 1 0 1\nstep 1 ask 0 a store 0 5 7\n".as_slice();
    let cases: [(&[u8], &str); 3] = [
        (
            DAMAGED,
            "damaged behind its first 154 bytes: a whole batch stands behind a broken one",
        ),
        (
            twice.as_slice(),
            "damaged behind its first 321 bytes: a whole batch stands behind a broken one",
        ),
        (
            unmarked,
            "its batches have no marks: an earlier version kept it",
        ),
    ];
    for (bytes, text) in cases {
        let told = format!(in rt.alloc(); "shmdbg: journal: {text}\n")?;
        for begins in [false, true] {
            expect_refused(&rt, name, bytes, begins, told.as_bytes())?;
        }
        let ran = audit_alone(&rt, "1", name);
        let told = format!(in rt.alloc(); "shmdbg: {name}: {text}\n")?;
        expect(&rt, &ran, 1, b"", told.as_bytes());
    }
    fs::remove_file(&rt, name)?;
    Ok(())
}

/// A journal that a crash left before its first batch was whole is begun.
#[test]
fn a_journal_is_begun_again(rt: HostRuntime) -> Result<(), Fail> {
    let name = "front.journal";
    let fronts: [&[u8]; 5] = [
        b"",
        b"jour",
        HEADER,
        b"journal 1 0 1\ndurable 1 000",
        b"\0\0\0\0nal 1 0\0\0",
    ];
    for front in fronts {
        fs::write(&rt, name, front)?;
        let ran = site_kept(&rt, true, name, b"ask 0 a store 0 5 7\n");
        expect_stored(&rt, &ran);
        let kept = fs::read(&rt, name)?;
        assert_eq!(rt; kept.as_slice(), STORED);
    }
    fs::remove_file(&rt, name)?;
    Ok(())
}

/// No file, a folder and a device: nothing is made.
#[test]
fn journals_that_are_no_files(rt: HostRuntime) -> Result<(), Fail> {
    let ran = site_kept(&rt, false, "missing.journal", b"ask 0 a tick\n");
    expect(&rt, &ran, 1, b"", MISSING);
    assert!(rt; !fs::exists(&rt, "missing.journal")?);
    for (name, begins) in [
        (".", false),
        (".", true),
        ("/dev/null", false),
        ("/dev/null", true),
    ] {
        let ran = site_kept(&rt, begins, name, b"ask 0 a tick\n");
        expect(&rt, &ran, 1, b"", NO_FILE);
    }
    Ok(())
}

/// A folder that isn't there.
#[test]
fn journals_that_cannot_be_opened(rt: HostRuntime) {
    let name = "no folder/journal";
    let ran = site_kept(&rt, true, name, b"ask 0 a tick\n");
    expect(&rt, &ran, 3, b"", b"shmdbg: journal: it can't be opened\n");
    let ran = audit_alone(&rt, "1", name);
    expect(
        &rt,
        &ran,
        3,
        b"",
        b"shmdbg: no folder/journal: it can't be opened\n",
    );
}

/// Journals that an audit takes or doesn't: one with garbage behind its last whole batch; of too few sites, of a wrong line, and of a site that
/// was handed what nobody sent. Marks don't count as lines.
#[test]
fn journals_that_are_audited(rt: HostRuntime) -> Result<(), Fail> {
    let name = "audited.journal";
    let cases: [(&str, &[&[u8]], u8, &[u8]); 4] = [
        ("1", &[HEADER, STORE], 0, b""),
        (
            "2",
            &[HEADER, STORE],
            1,
            b"shmdbg: not one set of journals\n",
        ),
        (
            "1",
            &[HEADER, b"step 2 ask 0 a store 0 5 7\n"],
            1,
            b"shmdbg: audited.journal: line 2: bad line\n",
        ),
        (
            "1",
            &[
                HEADER,
                b"step 1 ask 0 a tick\n",
                b"step 2 env 0 0 1 0 0 ask 0 0 1 read\n",
            ],
            4,
            b"shmdbg: audit no: ",
        ),
    ];
    for (sites, batches, status, errors) in cases {
        let mut bytes = marked(rt.alloc(), batches)?;
        bytes.extend_from_slice(b"\0\xff\0garbage\n\ndurable 9 torn")?;
        fs::write(&rt, name, bytes.as_slice())?;
        let ran = audit_alone(&rt, sites, name);
        let text = if status == 0 {
            b"audit yes\nsteps 1\naccesses 1\nenvelopes 0\n".as_slice()
        } else {
            b""
        };
        assert_eq!(rt; ran.status, status);
        assert_eq!(rt; ran.out.as_slice(), text);
        assert!(rt; ran.errors.as_slice().starts_with(errors), "{errors:?}");
    }
    fs::remove_file(&rt, name)?;
    Ok(())
}
