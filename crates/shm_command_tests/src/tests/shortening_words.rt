//! What a site's words say of when its journal is made shorter, and of the whole one.
use super::run_over;
use shm_command::{SealWords, Shortening, Task, parse_words};
use shm_place::{SiteId, Sites};
use std::test::Fail;

/// When a site's journal is made shorter, and whether whole ones go: 64 MiB and no, where nothing is said; a number; 0; the greatest; whole
/// ones go; both.
#[test]
fn words_of_a_shortening(rt: HostRuntime) -> Result<(), Fail> {
    let cases: [(&[&str], u64, bool); 6] = [
        (&[], 67_108_864, false),
        (&["--shorten-at", "5000"], 5000, false),
        (&["--shorten-at=0"], 0, false),
        (
            &["--shorten-at=9223372036854775807"],
            9_223_372_036_854_775_807,
            false,
        ),
        (&["--forget"], 67_108_864, true),
        (&["--forget", "--shorten-at=1"], 1, true),
    ];
    for (options, at, forgets) in cases {
        let mut words = vec![in rt.alloc(); "shmdbg", "site", "--sites=1", "--me=0", "--preset=1"]?;
        words.push("--journal=a")?;
        words.extend_from_slice(options)?;
        let task = parse_words(rt.alloc(), words.as_slice())?;
        let sites = Sites::new(1)?;
        let asked = Task::Site {
            sites,
            me: SiteId(0),
            pages: 1,
            journal: Some("a"),
            begins: false,
            seal: SealWords {
                cluster: None,
                key: None,
            },
            shortening: Shortening { at, forgets },
        };
        assert_eq!(rt; task, asked);
    }
    Ok(())
}

/// Words that are refused, and what the parser's text begins with: a number that is too large, or spelled otherwise; and without a journal
/// both options, whichever the number. Nothing is read and nothing is written.
#[test]
fn refused_words_of_a_shortening(rt: HostRuntime) -> Result<(), Fail> {
    let unshortened =
        b"error: '--shorten-at' makes a journal shorter: it needs '--journal <FILE>'\n".as_slice();
    let unforgotten =
        b"error: '--forget' lets whole journals go: it needs '--journal <FILE>'\n".as_slice();
    let cases: [(&[&str], &[u8]); 8] = [
        (
            &["--journal=a", "--shorten-at=9223372036854775808"],
            b"error: invalid value '9223372036854775808' for '--shorten-at <BYTES>'",
        ),
        (
            &["--journal=a", "--shorten-at=01"],
            b"error: invalid value '01' for '--shorten-at': a number has",
        ),
        (&["--shorten-at=5000"], unshortened),
        (&["--shorten-at=0"], unshortened),
        (&["--shorten-at=67108864"], unshortened),
        (&["--forget"], unforgotten),
        (&["--forget", "--shorten-at=1"], unforgotten),
        (
            &["--forget", "--new"],
            b"error: '--new' begins a journal: it needs '--journal <FILE>'\n",
        ),
    ];
    for (options, text) in cases {
        let mut words = vec![in rt.alloc(); "shmdbg", "site", "--sites=1", "--me=0", "--preset=1"]?;
        words.extend_from_slice(options)?;
        let mut reader = b"ask 0 a tick\n".as_slice();
        let ran = run_over(&rt, words.as_slice(), &mut reader);
        assert_eq!(rt; ran.status, 2);
        assert!(rt; ran.errors.as_slice().starts_with(text), "{text:?}");
        assert_eq!(rt; ran.out.as_slice(), b"".as_slice());
        assert_eq!(rt; reader, b"ask 0 a tick\n".as_slice());
    }
    Ok(())
}
