use super::{expect, run_over};
use shm_command::{SealWords, Shortening, Task, parse_words};
use shm_place::{SiteId, Sites};
use std::test::Fail;

/// A site of two.
fn words_of(me: &str) -> [&str; 8] {
    [
        "shmdbg", "site", "--sites", "2", "--me", me, "--preset", "1",
    ]
}

/// Site 1 loads what site 0 stored. Each is started anew with all its lines so far: it tells the same of the first of them.
#[test]
fn two_sites(rt: HostRuntime) -> Result<(), Fail> {
    let mut asks = b"ask 1 b load 0 5\n".as_slice();
    let reader = run_over(&rt, &words_of("1"), &mut asks);
    expect(
        &rt,
        &reader,
        0,
        b"env 1 0 0 0 0 hello 2 1\nenv 1 0 1 0 0 ask 0 0 1 read\n",
        b"",
    );
    let mut lines = Vec::from_slice(rt.alloc(), b"ask 0 a store 0 5 7\n")?;
    lines.extend_from_slice(reader.out.as_slice())?;
    lines.extend_from_slice(b"env 0 0 2 1 0 hand 0 0 1 read 1\n")?;
    let owner = run_over(&rt, &words_of("0"), &mut lines.as_slice());
    assert_eq!(rt; owner.status, 0);
    assert!(rt;
        owner.out.as_slice().starts_with(
            b"env 0 1 0 0 0 hello 2 1\ntell 0 a stored\nenv 0 0 2 1 0 hand 0 0 1 read 1\nenv 0 1 3 2 0 page "
        )
    );
    let mut lines = Vec::from_slice(rt.alloc(), b"ask 1 b load 0 5\n")?;
    lines.extend_from_slice(owner.out.as_slice())?;
    let reader = run_over(&rt, &words_of("1"), &mut lines.as_slice());
    expect(
        &rt,
        &reader,
        0,
        b"env 1 0 0 0 0 hello 2 1\nenv 1 0 1 0 0 ask 0 0 1 read\nenv 1 0 4 1 0 confirm 0 0 1\ntell 1 b byte 7\n",
        b"",
    );
    Ok(())
}

/// A line for another site, one that is none, one that is too long, and a last one without its line feed: nothing is told of them.
#[test]
fn lines_that_are_passed_over(rt: HostRuntime) -> Result<(), Fail> {
    let mut lines = vec![in rt.alloc(); b'a'; 9000]?;
    lines.extend_from_slice(
        b"\nask 1 a tick\nnonsense\n\nask 0 b tick\nask 0 c show 0 0\nask 0 d tick",
    )?;
    let ran = run_over(&rt, &words_of("0"), &mut lines.as_slice());
    expect(
        &rt,
        &ran,
        0,
        b"env 0 1 0 0 0 hello 2 1\ntell 0 b took\ntell 0 c page OwnWrite/0\n",
        b"",
    );
    Ok(())
}

/// Another site says that it was begun with other numbers, twice: it is told how this one was, and standard error says it once.
#[test]
fn another_opening(rt: HostRuntime) {
    let mut lines = b"env 1 0 0 0 0 hello 3 1\nenv 1 0 0 0 0 hello 2 4\n".as_slice();
    let ran = run_over(&rt, &words_of("0"), &mut lines);
    expect(
        &rt,
        &ran,
        0,
        b"env 0 1 0 0 0 hello 2 1\nenv 0 1 0 0 0 hello 2 1\n",
        b"shmdbg: site 1 was begun with --sites 3 --preset 1, this one with --sites 2 --preset 1\n",
    );
}

/// Words of a site that are refused, and what the parser's text begins with; nothing is read and nothing is written.
#[test]
fn refused_words(rt: HostRuntime) -> Result<(), Fail> {
    let missing = b"error: the following required arguments".as_slice();
    let cases: [([&str; 7], &[u8]); 12] = [
        (["--me", "0", "--preset", "1", "", "", ""], missing),
        (["--sites", "1", "--preset", "1", "", "", ""], missing),
        (["--sites", "1", "--me", "0", "", "", ""], missing),
        (
            ["--sites", "17", "--me", "0", "--preset", "1", ""],
            b"error: invalid value '17' for '--sites <N>'",
        ),
        (
            ["--sites", "16", "--me", "16", "--preset", "1", ""],
            b"error: invalid value '16' for '--me <K>'",
        ),
        (
            ["--sites", "1", "--me", "0", "--preset", "0", ""],
            b"error: invalid value '0' for '--preset <P>'",
        ),
        (
            ["--sites", "1", "--me", "0", "--preset", "257", ""],
            b"error: invalid value '257' for '--preset <P>'",
        ),
        (
            ["--sites", "2", "--me", "2", "--preset", "1", ""],
            b"error: invalid value '2' for '--me': sites are numbered from 0, and there are 2\n",
        ),
        (
            ["--sites", "2", "--me", "01", "--preset", "1", ""],
            b"error: invalid value '01' for '--me': a number has",
        ),
        (
            ["--sites", "2", "--me", "1", "--preset", "+1", ""],
            b"error: invalid value '+1' for '--preset': a number has",
        ),
        (
            ["--sites", "2", "--me", "1", "--preset", "1 ", ""],
            b"error: invalid value '1 ' for '--preset <P>'",
        ),
        (
            ["--sites", "2", "--me", "1", "--preset", "1", "--new"],
            b"error: '--new' begins a journal: it needs '--journal <FILE>'\n",
        ),
    ];
    for (options, text) in cases {
        let mut words = vec![in rt.alloc(); "shmdbg", "site"]?;
        for option in options {
            if !option.is_empty() {
                words.push(option)?;
            }
        }
        let mut reader = b"ask 0 a tick\n".as_slice();
        let ran = run_over(&rt, words.as_slice(), &mut reader);
        assert_eq!(rt; ran.status, 2);
        assert!(rt; ran.errors.as_slice().starts_with(text), "{text:?}");
        assert_eq!(rt; ran.out.as_slice(), b"".as_slice());
        assert_eq!(rt; reader, b"ask 0 a tick\n".as_slice());
    }
    Ok(())
}

/// What a site's options say, in any order.
#[test]
fn numbers_of_a_site(rt: HostRuntime) -> Result<(), Fail> {
    let cases: [(&[&str], u32, u32, u32, Option<&str>, bool); 6] = [
        (
            &["--sites=16", "--me=15", "--preset=256"],
            16,
            15,
            256,
            None,
            false,
        ),
        (&["--preset=1", "--sites=1", "--me=0"], 1, 0, 1, None, false),
        (&["--me=2", "--preset=4", "--sites=3"], 3, 2, 4, None, false),
        (
            &["--journal", "a b", "--sites=2", "--me=1", "--preset=1"],
            2,
            1,
            1,
            Some("a b"),
            false,
        ),
        (
            &["--sites=2", "--me=1", "--preset=1", "--journal=1"],
            2,
            1,
            1,
            Some("1"),
            false,
        ),
        (
            &["--new", "--sites=2", "--journal=1", "--me=1", "--preset=1"],
            2,
            1,
            1,
            Some("1"),
            true,
        ),
    ];
    for (options, of_sites, me, pages, journal, begins) in cases {
        let mut words = vec![in rt.alloc(); "shmdbg", "site"]?;
        words.extend_from_slice(options)?;
        let task = parse_words(rt.alloc(), words.as_slice())?;
        let sites = Sites::new(of_sites)?;
        let me = SiteId(me);
        let asked = Task::Site {
            sites,
            me,
            pages,
            journal,
            begins,
            seal: SealWords {
                cluster: None,
                key: None,
            },
            shortening: Shortening {
                at: 67_108_864,
                forgets: false,
            },
        };
        assert_eq!(rt; task, asked);
    }
    Ok(())
}
