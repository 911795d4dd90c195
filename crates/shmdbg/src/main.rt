//! `shmdbg`, the command line: `shm_command` over the words and streams of its process.
#![tactic(auto)]

use shm_command::run_process;
use std::process::ExitCode;

fn main(rt: HostRuntime) -> ExitCode {
    let input = rt.stdin();
    let mut out = rt.stdout();
    let mut errors = rt.stderr();
    ExitCode::from(run_process(&rt, input, &mut out, &mut errors))
}
