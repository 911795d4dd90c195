mod captions;
mod command_line_words;
mod failed_runs;
mod failing_journals;
mod failing_streams;
mod journal_and_log_files;
mod journal_summaries;
mod journals;
mod marked_journals;
mod prompts;
mod replay_limits;
mod runs;
mod saved_run_logs;
mod script_files;
mod seals;
mod shortened_journals;
mod shortening_words;
mod simulations;
mod sites;

use shm_command::{Lock, Recalls, run_words};
use std::io::Read;
use std::process::Abort;
use std::rt::{Clock, Files};
use std::sync::Wait;
use std::thread::Threads;

/// What a call of the program came to.
#[derive(Drop)]
struct Ran {
    status: u8,
    out: Vec<u8>,
    errors: Vec<u8>,
}

/// Runs the program with these words, with its output in memory.
fn run_over<
    R: AllocGlobal + Clock + Files + Threads + Wait + Copy + Send + Sync + 'static,
    I: Read + Recalls,
>(rt: &R, words: &[&str], reader: &mut I) -> Ran
where
    R::File: Lock,
{
    let mut out = Vec::new(rt.alloc());
    let mut errors = Vec::new(rt.alloc());
    let status = run_words(rt, words, reader, &mut out, &mut errors);
    Ran {
        status,
        out,
        errors,
    }
}

/// Replays a script that lies in memory.
fn replay_bytes<R: AllocGlobal + Clock + Files + Threads + Wait + Copy + Send + Sync + 'static>(
    rt: &R,
    script: &[u8],
) -> Ran
where
    R::File: Lock,
{
    let mut reader = script;
    run_over(rt, &["shmdbg", "replay"], &mut reader)
}

/// What a call is to come to: its status, its text, and what is told of its fault.
fn expect(rt: &impl Abort, ran: &Ran, status: u8, out: &[u8], errors: &[u8]) {
    assert_eq!(rt; ran.status, status);
    assert_eq!(rt; ran.out.as_slice(), out);
    assert_eq!(rt; ran.errors.as_slice(), errors);
}
