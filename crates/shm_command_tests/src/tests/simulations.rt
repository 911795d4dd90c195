//! Simulations: their words, what they tell, and the scripts that they keep.
use super::{expect, run_over};
use shm_command::{Simulation, Source, Task, parse_words, run_words, save_outcome_scripts};
use shm_lines::parse_workload;
use shm_place::Sites;
use shm_prompt::{ReadRefusal, SaveFile};
use shm_report::ReportFault;
use shm_simulate::{Odds, simulate};
use std::alloc::Allocator;
use std::fs;
use std::io::{self, ErrorKind, Write};
use std::test::Fail;

/// The words of three runs over one site.
const WORDS: [&str; 5] = ["shmdbg", "simulate", "--sites=1", "--seed=1", "--runs=3"];

const WORKLOAD: &[u8] = b"preset 1\nstore 0 0 7\nload 0 0\n";

/// One site manages and owns each page, so that it never waits and sends nothing.
const TEXT: &str = "runs 3\noutcome 1 count 3 seed 1\nline 3 byte 7\n\
    What no run came to is not therefore impossible.\nThe least, the median and the greatest of all runs:\n\
    line 2 faults 0 0 0\nline 2 rounds 0 0 0\nline 3 faults 0 0 0\nline 3 rounds 0 0 0\n\
    messages Ask 0 0 0\nmessages Clear 0 0 0\nmessages Cleared 0 0 0\n\
    messages Hand 0 0 0\nmessages Page 0 0 0\nmessages Confirm 0 0 0\n\
    page 0 messages 0 0 0\npage 0 moves 0 0 0\npage 0 faults 0 0 0\nticks 0 0 0\n";

#[test]
fn what_one_site_stores_it_loads_in_each_run(rt: HostRuntime) {
    let mut reader = WORKLOAD;
    let ran = run_over(&rt, &WORDS, &mut reader);
    expect(&rt, &ran, 0, TEXT.as_bytes(), b"");
}

/// Words that are refused, and what the parser's text begins with; nothing is read.
#[test]
fn refused_words(rt: HostRuntime) -> Result<(), Fail> {
    let cases: [(&str, &[u8]); 6] = [
        ("--lose=101", b"error: invalid value '101' for '--lose <P>'"),
        ("--repeat=-1", b"error: "),
        (
            "--restart=05",
            b"error: invalid value '05' for '--restart': ",
        ),
        (
            "--runs=4",
            b"error: the argument '--runs <M>' cannot be used multiple times",
        ),
        ("--log=.", b"error: unexpected argument '--log' found"),
        ("more", b"error: unexpected argument 'more' found"),
    ];
    for (word, text) in cases {
        let mut words = WORDS.to_vec(rt.alloc())?;
        words.push(word)?;
        let mut reader = WORKLOAD;
        let ran = run_over(&rt, words.as_slice(), &mut reader);
        assert_eq!(rt; (ran.status, ran.out.as_slice()), (2, b"".as_slice()));
        assert!(rt; ran.errors.as_slice().starts_with(text), "{word}");
        assert_eq!(rt; reader, WORKLOAD);
    }
    Ok(())
}

/// No run is none.
#[test]
fn no_runs(rt: HostRuntime) {
    let words = ["shmdbg", "simulate", "--sites=1", "--seed=1", "--runs=0"];
    let mut reader = WORKLOAD;
    let ran = run_over(&rt, &words, &mut reader);
    assert_eq!(rt; ran.status, 2);
    let text = b"error: invalid value '0' for '--runs <M>'".as_slice();
    assert!(rt; ran.errors.as_slice().starts_with(text));
}

/// What the options say; nothing goes wrong where nothing is said of it.
#[test]
fn options_of_a_simulation(rt: HostRuntime) -> Result<(), Fail> {
    let cases: [(&[&str], [u32; 3], Option<&str>); 3] = [
        (&[], [0, 0, 0], None),
        (&["--lose=10", "--keep", "a b"], [10, 0, 0], Some("a b")),
        (&["--restart=100", "--repeat=0"], [0, 0, 100], None),
    ];
    for (options, [lose, repeat, restart], keep) in cases {
        let mut words = WORDS.to_vec(rt.alloc())?;
        words.extend_from_slice(options)?;
        let task = parse_words(rt.alloc(), words.as_slice())?;
        let odds = Odds {
            lose,
            repeat,
            restart,
        };
        let asked = Simulation {
            sites: Sites::new(1)?,
            seed: 1,
            runs: 3,
            odds,
            keep,
        };
        assert_eq!(rt; task, Task::Simulate(asked));
    }
    Ok(())
}

/// A wrong line is told, and shown, as by a run; nothing is written.
#[test]
fn wrong_workloads(rt: HostRuntime) {
    let cases: [(&[u8], &[u8]); 2] = [
        (b"sites 1\n", b"shmdbg: line 1: bad line\nsites 1\n"),
        (
            b"preset 1\nload 0 0 0\n",
            b"shmdbg: line 2: bad line\nload 0 0 0\n",
        ),
    ];
    for (workload, errors) in cases {
        let mut reader = Source::new(workload, true, false);
        let ran = run_over(&rt, &WORDS, &mut reader);
        assert_eq!(rt; (ran.status, ran.out.as_slice()), (1, b"".as_slice()));
        assert!(rt; ran.errors.as_slice().starts_with(errors));
    }
}

/// Takes nothing.
#[derive(Drop)]
struct Full;

impl Write for Full {
    fn write(&mut self, _buf: &[u8]) -> io::Result<usize> {
        Ok(0)
    }

    fn flush(&mut self) -> io::Result<()> {
        Ok(())
    }
}

#[test]
fn a_text_that_can_not_be_written(rt: HostRuntime) {
    let mut reader = WORKLOAD;
    let mut errors = Vec::new(rt.alloc());
    let status = run_words(&rt, &WORDS, &mut reader, &mut Full, &mut errors);
    assert_eq!(rt; status, 3);
    assert_eq!(rt; errors.as_slice(), b"shmdbg: write fault\n".as_slice());
}

/// A kept script replays to the bytes of its outcome, and replaces what was there.
#[test]
fn a_kept_script_is_replayed(rt: HostRuntime) -> Result<(), Fail> {
    let name = "./outcome-1.shm";
    fs::write(
        &rt,
        name,
        b"old\nold\nold\nold\nold\nold\nold\nold\nold\nold\nold\n",
    )?;
    let mut words = WORDS.to_vec(rt.alloc())?;
    words.push("--keep=.")?;
    let mut reader = WORKLOAD;
    let ran = run_over(&rt, words.as_slice(), &mut reader);
    expect(&rt, &ran, 0, TEXT.as_bytes(), b"");
    let kept = fs::read(&rt, name)?;
    let script = b"sites 1 preset 1\nstore 0 0 0 7\nload 0 0 0\n".as_slice();
    assert_eq!(rt; kept.as_slice(), script);
    let ran = run_over(&rt, &["shmdbg", "replay", name], &mut reader);
    expect(&rt, &ran, 0, b"1 ready\n2 stored\n3 byte 7\n", b"");
    fs::remove_file(&rt, name)?;
    Ok(())
}

/// The scripts have no folder: nothing is read, and nothing is run.
#[test]
fn scripts_without_a_folder(rt: HostRuntime) -> Result<(), Fail> {
    let mut words = WORDS.to_vec(rt.alloc())?;
    words.push("--keep=no folder")?;
    let mut reader = WORKLOAD;
    let ran = run_over(&rt, words.as_slice(), &mut reader);
    let told = b"shmdbg: no folder/outcome-1.shm: it can't be opened\n";
    expect(&rt, &ran, 3, b"", told);
    assert_eq!(rt; reader, WORKLOAD);
    Ok(())
}

/// Counts what is saved; a name that begins with `full` is refused.
#[derive(Drop)]
struct Counter {
    saved: usize,
}

impl SaveFile for Counter {
    ghost use Rattle.std.specs.Prelude.{None, ⊤};

    ghost saves = { λ _. None };

    ghost gives = { λ _ _ _. ⊤ };

    fn save(&mut self, name: &str, _bytes: &[u8]) -> io::Result<()> {
        if name.starts_with("full") {
            return Err(io::Error::from(ErrorKind::Other));
        }
        self.saved = self.saved.saturating_add(1);
        Ok(())
    }

    fn read<A: Allocator + Copy>(&self, _alloc: A, _name: &str) -> Result<Vec<u8, A>, ReadRefusal> {
        Err(ReadRefusal::Unread)
    }
}

/// Each outcome is saved once, or none where the first is refused.
#[test]
fn each_outcome_is_saved(rt: HostRuntime) -> Result<(), Fail> {
    let alloc = rt.alloc();
    let sites = Sites::new(2)?;
    let lines = b"preset 1\nstore 0 0 1\nload 1 0\n";
    let workload = parse_workload(alloc, sites, lines)?;
    let odds = Odds {
        lose: 0,
        repeat: 0,
        restart: 0,
    };
    let tally = simulate(alloc, sites, &workload, odds, 1, 50)?;
    let outcomes = tally.outcomes.as_slice();
    assert_eq!(rt; outcomes.len(), 2);
    let mut files = Counter { saved: 0 };
    let saved = save_outcome_scripts(alloc, "a b", sites, 1, outcomes, &mut files);
    assert_eq!(rt; (saved, files.saved), (Ok(()), 2));
    let refused = save_outcome_scripts(alloc, "full", sites, 1, outcomes, &mut files);
    assert_eq!(rt; (refused, files.saved), (Err(ReportFault::WriteFault), 2));
    Ok(())
}

/// Each of two sites stores a byte, and loads that of the other.
const STORE_BUFFERING: &[u8] = b"preset 2\nstore 0 0 1\nload 0 4096\nstore 1 4096 1\nload 1 0\n";

/// The run of that number has the first one's seed and its number, up to 2^32.
#[test]
fn a_told_seed_gives_its_outcome_again(rt: HostRuntime) -> Result<(), Fail> {
    let alloc = rt.alloc();
    let sites = Sites::new(2)?;
    let workload = parse_workload(alloc, sites, STORE_BUFFERING)?;
    let odds = Odds {
        lose: 10,
        repeat: 10,
        restart: 5,
    };
    let many = simulate(alloc, sites, &workload, odds, 7, 60)?;
    assert!(rt; many.outcomes.len() > 1);
    for outcome in &many.outcomes {
        let seed = many.seed.wrapping_add(outcome.run);
        let one = simulate(alloc, sites, &workload, odds, seed, 1)?;
        let Some(again) = one.outcomes.first() else {
            return Err("an outcome".into());
        };
        assert_eq!(rt; again.given.as_slice(), outcome.given.as_slice());
    }
    Ok(())
}
