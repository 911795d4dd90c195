//! The command over what a process begins with: its words and its standard streams.
ghost use Rattle.std.specs.Prelude.{◌≡◌, ◌<◌};

use crate::closed_standard_streams::Held;
use crate::dispatch_command::run_words;
use crate::error_text_and_status;
use crate::recalling_input::Source;
use std::env::{self, Env};
use std::fs::File;
use std::io::{self, IsTerminal, Read, Write};
use std::rt::{Clock, Files};
use std::sync::Wait;
use std::thread::Threads;

/// Does what the process's words ask for over its standard streams, and answers the exit status, as `run_words` does. Where standard input
/// or output is closed, or `/dev/null` can't be opened, that is 3, and where a word is no UTF-8 it is 2.
pub fn run_process<
    R: AllocGlobal
        + Clock
        + Env
        + Files<File = File>
        + Threads
        + Wait
        + Copy
        + Send
        + Sync
        + 'static,
    I: Read + IsTerminal + Drop,
    O: Write + IsTerminal,
    E: Write + IsTerminal,
>(rt: &R, input: I, out: &mut O, errors: &mut E) -> u8
    ensures range { result < 5 }
    ensures nothing_written { result ≡ 2 → out.new ≡ out.old }
{
    let held = match Held::new(rt) {
        Ok(held) => held,
        Err(_) => return error_text_and_status::no_null(errors),
    };
    if let Some(stream) = held.closed() {
        return error_text_and_status::closed_stream(stream, errors);
    }
    let words = match words_of_process(rt) {
        Ok(words) => words,
        Err(error) => return error_text_and_status::unread_words(&error, errors),
    };
    let is_typed = input.is_terminal() && out.is_terminal();
    let mut reader = Source::new(input, errors.is_terminal(), is_typed);
    run_words(rt, words.as_slice(), &mut reader, out, errors)
}

fn words_of_process(rt: &(impl Env + AllocGlobal)) -> io::Result<Vec<String>> {
    let words: Vec<String> = env::args(rt)?.collect(rt.alloc())?;
    Ok(words)
}
