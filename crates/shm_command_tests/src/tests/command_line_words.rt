use super::{expect, run_over};
use shm_command::{Task, parse_words};
use shm_place::Sites;
use std::alloc::AllocError;
use std::test::Fail;

/// Words that are refused; what the parser's text begins with; nothing is read and nothing is written.
#[test]
fn refused_words(rt: HostRuntime) {
    let cases: [(&[&str], &[u8]); 10] = [
        (&[], b"error: "),
        (&["shmdbg"], b"error: "),
        (
            &["shmdbg", "nonsense"],
            b"error: unrecognized subcommand 'nonsense'\n",
        ),
        (
            &["shmdbg", "replay", "my.shm", "more"],
            b"error: unexpected argument 'more' found\n",
        ),
        (&["shmdbg", "help"], b"Shared memory segments"),
        (&["shmdbg", "--help"], b"Shared memory segments"),
        (
            &["shmdbg", "run"],
            b"error: the following required arguments",
        ),
        (
            &["shmdbg", "run", "--sites", "0", "--seed", "1"],
            b"error: invalid value '0' for '--sites <N>'",
        ),
        (
            &["shmdbg", "run", "--sites", "17", "--seed", "1"],
            b"error: invalid value '17' for '--sites <N>'",
        ),
        (
            &["shmdbg", "run", "--sites", "1", "--seed", "4294967296"],
            b"error: invalid value",
        ),
    ];
    for (words, text) in cases {
        let mut reader = b"sites 1 preset 1\n".as_slice();
        let ran = run_over(&rt, words, &mut reader);
        assert_eq!(rt; ran.status, 2);
        assert!(rt; ran.errors.as_slice().starts_with(text), "{text:?}");
        assert_eq!(rt; ran.out.as_slice(), b"".as_slice());
        assert_eq!(rt; reader, b"sites 1 preset 1\n".as_slice());
    }
}

/// What a run's options say, in either order and behind a blank or an equals sign.
#[test]
fn numbers_of_a_run(rt: HostRuntime) -> Result<(), Fail> {
    let cases: [(&[&str], u32, u32, bool, Option<&str>); 6] = [
        (&["--sites", "3", "--seed", "2"], 3, 2, false, None),
        (&["--seed", "1", "--sites", "16"], 16, 1, false, None),
        (&["--sites=4", "--seed", "0"], 4, 0, false, None),
        (
            &["--seed=4294967295", "--sites=1"],
            1,
            4294967295,
            false,
            None,
        ),
        (&["--sites=4", "--summary", "--seed=1"], 4, 1, true, None),
        (
            &["--log", "a b", "--sites=4", "--seed=1"],
            4,
            1,
            false,
            Some("a b"),
        ),
    ];
    for (options, of_sites, seed, summary, log) in cases {
        let mut words = vec![in rt.alloc(); "shmdbg", "run"]?;
        words.extend_from_slice(options)?;
        let sites = Sites::new(of_sites)?;
        let task = parse_words(rt.alloc(), words.as_slice())?;
        let asked = Task::Run {
            sites,
            seed,
            summary,
            log,
        };
        assert_eq!(rt; task, asked);
    }
    Ok(())
}

/// Seventeen files of journals.
const SEVENTEEN: [&str; 17] = [
    "a", "b", "c", "d", "e", "f", "g", "h", "i", "j", "k", "l", "m", "n", "o", "p", "q",
];

/// Words of an audit that are refused, and what the parser's text begins with; nothing is read and nothing is written.
#[test]
fn refused_audits(rt: HostRuntime) -> Result<(), Fail> {
    let missing = b"error: the following required arguments".as_slice();
    let cases: [(&[&str], &[&str], &[u8]); 6] = [
        (&["--sites", "2"], &[], missing),
        (&[], &SEVENTEEN[..2], missing),
        (
            &["--sites", "0"],
            &SEVENTEEN[..2],
            b"error: invalid value '0' for '--sites <N>'",
        ),
        (
            &["--sites", "02"],
            &SEVENTEEN[..2],
            b"error: invalid value '02' for '--sites': ",
        ),
        (
            &["--sites", "16"],
            &SEVENTEEN,
            b"error: unexpected value 'q' for '<JOURNAL>...' found",
        ),
        (
            &["a", "--sites", "2"],
            &SEVENTEEN[1..2],
            b"error: the argument '<JOURNAL>...' cannot be used multiple times",
        ),
    ];
    for (options, journals, text) in cases {
        let mut words = vec![in rt.alloc(); "shmdbg", "audit"]?;
        words.extend_from_slice(options)?;
        words.extend_from_slice(journals)?;
        let mut reader = b"".as_slice();
        let ran = run_over(&rt, words.as_slice(), &mut reader);
        assert_eq!(rt; ran.status, 2);
        assert!(rt; ran.errors.as_slice().starts_with(text), "{text:?}");
        assert_eq!(rt; ran.out.as_slice(), b"".as_slice());
    }
    Ok(())
}

/// The number of sites and the journals of an audit that is asked for.
fn audit_of(task: Task<'_>) -> Result<(Sites, Vec<&str>), Fail> {
    match task {
        Task::Audit { sites, journals } => Ok((sites, journals)),
        _ => Err(Fail::new("an audit is asked for")),
    }
}

/// What an audit's words say: the journals in the order in which they stand, before or behind the number of sites.
#[test]
fn journals_of_an_audit(rt: HostRuntime) -> Result<(), Fail> {
    let cases: [(&[&str], u32, &[&str]); 4] = [
        (&["--sites", "1", "a"], 1, &["a"]),
        (&["b", "a b", "--sites=2"], 2, &["b", "a b"]),
        (&["--sites=2", "--", "-b", "--sites"], 2, &["-b", "--sites"]),
        (&["--sites=16", "b", "a", "b"], 16, &["b", "a", "b"]),
    ];
    for (options, of_sites, named) in cases {
        let mut words = vec![in rt.alloc(); "shmdbg", "audit"]?;
        words.extend_from_slice(options)?;
        let (sites, journals) = audit_of(parse_words(rt.alloc(), words.as_slice())?)?;
        assert_eq!(rt; sites.count(), of_sites);
        assert_eq!(rt; journals.as_slice(), named);
    }
    let mut words = vec![in rt.alloc(); "shmdbg", "audit", "--sites=16"]?;
    words.extend_from_slice(&SEVENTEEN[..16])?;
    let (sites, journals) = audit_of(parse_words(rt.alloc(), words.as_slice())?)?;
    assert_eq!(rt; sites.count(), 16);
    assert_eq!(rt; journals.as_slice(), &SEVENTEEN[..16]);
    Ok(())
}

/// Numbers that clap would take, and that aren't spelled plainly: refused as other words are.
#[test]
fn numbers_spelled_otherwise(rt: HostRuntime) {
    let cases: [(&str, &str, &[u8]); 6] = [
        (
            "--sites=01",
            "--seed=1",
            b"error: invalid value '01' for '--sites': ",
        ),
        (
            "--sites=+1",
            "--seed=1",
            b"error: invalid value '+1' for '--sites': ",
        ),
        (
            "--sites=1",
            "--seed=007",
            b"error: invalid value '007' for '--seed': ",
        ),
        (
            "--sites=1",
            "--seed=00",
            b"error: invalid value '00' for '--seed': ",
        ),
        (
            "--sites=1",
            "--seed=-0",
            b"error: invalid value '-0' for '--seed': ",
        ),
        (
            "--sites=+1",
            "--seed=+1",
            b"error: invalid value '+1' for '--sites': ",
        ),
    ];
    for (sites, seed, text) in cases {
        let mut reader = b"preset 1\n".as_slice();
        let ran = run_over(&rt, &["shmdbg", "run", sites, seed], &mut reader);
        assert_eq!(rt; ran.status, 2);
        assert!(rt; ran.errors.as_slice().starts_with(text), "{text:?}");
        assert_eq!(rt; reader, b"preset 1\n".as_slice());
    }
}

/// The version is told as help is.
#[test]
fn the_version(rt: HostRuntime) {
    for word in ["--version", "-V"] {
        let mut reader = b"".as_slice();
        let ran = run_over(&rt, &["shmdbg", word], &mut reader);
        expect(&rt, &ran, 2, b"", b"shmdbg 1.0.0\n");
    }
}

fn repeat(rt: &impl AllocGlobal, letter: &str, count: usize) -> Result<String, AllocError> {
    let mut word = String::new(rt.alloc());
    for _ in 0..count {
        word.push_str(letter)?;
    }
    Ok(word)
}

/// A long word is told by its first 80 bytes, and by fewer where a character would be cut.
#[test]
fn long_words(rt: HostRuntime) -> Result<(), Fail> {
    let fronts: [(&str, usize, usize); 3] = [("a", 81, 80), ("a", 100_000, 80), ("€", 27, 26)];
    for (letter, count, told) in fronts {
        let word = repeat(&rt, letter, count)?;
        let front = repeat(&rt, letter, told)?;
        let words = ["shmdbg", "--help", word.as_str()];
        let mut reader = b"".as_slice();
        let ran = run_over(&rt, &words, &mut reader);
        let text = format!(in rt.alloc();
            "error: unexpected argument '{front}..' found: a word has at most 80 bytes\n"
        )?;
        assert_eq!(rt; ran.status, 2);
        assert!(rt; ran.errors.as_slice().starts_with(text.as_bytes()));
        assert!(rt; ran.errors.len() < 300);
    }
    Ok(())
}

/// A word of 80 bytes is told whole, and the program's own name may be longer.
#[test]
fn words_that_are_not_too_long(rt: HostRuntime) -> Result<(), Fail> {
    let word = repeat(&rt, "a", 80)?;
    let mut reader = b"sites 1\n".as_slice();
    let ran = run_over(&rt, &["shmdbg", word.as_str()], &mut reader);
    let text = format!(in rt.alloc(); "error: unrecognized subcommand '{word}'\n")?;
    assert_eq!(rt; ran.status, 2);
    assert!(rt; ran.errors.as_slice().starts_with(text.as_bytes()));
    let name = repeat(&rt, "a", 81)?;
    let ran = run_over(&rt, &[name.as_str(), "replay"], &mut reader);
    expect(&rt, &ran, 0, b"1 ready\n", b"");
    Ok(())
}
