//! The prompt's language: each line of a script, and the prompt's own commands.
ghost use Rattle.std.specs.Prelude.{◌≡◌, IfSome};
ghost use Rattle.shm_prompt.specs.Command as said;

use shm_lines::{Line, Words, laws, parse_line};
use shm_place::{PageId, SegId};

/// The most envelopes that `run` delivers without a number.
const MOST_BY_DEFAULT: u32 = 10_000;

/// A line of the prompt.
#[derive(Clone, Copy, Debug, PartialEq, Eq)]
pub enum Command {
    /// A line of a script: the session acts on it as a replay does. A `sites` line begins a new one.
    Line(Line),
    /// Lists the envelopes on their way.
    Flight,
    /// Shows what each site has of each page, the managers' books, and what each site waits for.
    Sites,
    /// Shows what each site has of this page, its manager's book, and who waits for it.
    Book(PageId),
    /// Lists the segments.
    Segments,
    /// Delivers the oldest envelope, again and again, at most so often.
    Run(u32),
    /// Takes back the last event that changed something.
    Undo,
    /// Tells of the commands.
    Help,
    /// Saves the script of the events that stand to a file; the line's second word is its name.
    Save,
    /// Opens a script that was saved; the line's second word is the file's name.
    Open,
    /// Keeps a note for the last line of the script; its text is what stands behind the first blank.
    Note,
    /// Saves the notes to a file; the line's second word is its name.
    Notes,
    /// Ends.
    Quit,
}

/// Reads a line without its line feed. Takes no memory.
pub fn parse_command(bytes: &[u8]) -> Option<Command>
    ensures command { result ≡ said.command_of bytes.now }
    ensures is_line { IfSome result said.IsCommand }
{
    let (verb, words) = Words::of(bytes).word()?;
    if verb == b"flight".as_slice() {
        return alone(Command::Flight, words);
    }
    if verb == b"sites".as_slice() {
        return sites(bytes, words);
    }
    if verb == b"segments".as_slice() {
        return alone(Command::Segments, words);
    }
    if verb == b"run".as_slice() {
        return run(words);
    }
    other(bytes, verb, words)
}

fn other(bytes: &[u8], verb: &[u8], words: Words<'_>) -> Option<Command>
    ensures command { result ≡ said.other_by bytes.now verb.now words.entry }
    ensures is_line { IfSome result said.IsCommand }
{
    if verb == b"undo".as_slice() {
        return alone(Command::Undo, words);
    }
    if verb == b"help".as_slice() {
        return alone(Command::Help, words);
    }
    if verb == b"save".as_slice() {
        return save(words);
    }
    if verb == b"quit".as_slice() {
        return alone(Command::Quit, words);
    }
    short(bytes, verb, words)
}

/// The shorter words for `help` and `quit`, a page's book, a script that is opened, or others.
fn short(bytes: &[u8], verb: &[u8], words: Words<'_>) -> Option<Command>
    ensures command { result ≡ said.short_by bytes.now verb.now words.entry }
    ensures is_line { IfSome result said.IsCommand }
{
    if verb == b"?".as_slice() {
        return alone(Command::Help, words);
    }
    if verb == b"exit".as_slice() {
        return alone(Command::Quit, words);
    }
    if verb == b"book".as_slice() {
        return book(words);
    }
    if verb == b"open".as_slice() {
        return open(words);
    }
    noted(bytes, verb, words)
}

/// Notes, or a line of a script.
fn noted(bytes: &[u8], verb: &[u8], words: Words<'_>) -> Option<Command>
    ensures command { result ≡ said.noted_by bytes.now verb.now words.entry }
    ensures is_line { IfSome result said.IsCommand }
{
    if verb == b"note".as_slice() {
        return note(words);
    }
    if verb == b"notes".as_slice() {
        return notes(words);
    }
    script_command(bytes)
}

fn note(words: Words<'_>) -> Option<Command>
    ensures command { result ≡ said.note_of words.entry }
    ensures is_line { IfSome result said.IsCommand }
{
    let (_word, _words) = words.word()?;
    Some(Command::Note)
}

fn notes(words: Words<'_>) -> Option<Command>
    ensures command { result ≡ said.notes_of words.entry }
    ensures is_line { IfSome result said.IsCommand }
{
    let (_name, words) = words.word()?;
    alone(Command::Notes, words)
}

fn open(words: Words<'_>) -> Option<Command>
    ensures command { result ≡ said.open_of words.entry }
    ensures is_line { IfSome result said.IsCommand }
{
    let (_name, words) = words.word()?;
    alone(Command::Open, words)
}

fn book(words: Words<'_>) -> Option<Command>
    ensures command { result ≡ said.book_of words.entry }
    ensures is_line { IfSome result said.IsCommand }
{
    let (seg, words) = words.number()?;
    let (index, words) = words.number()?;
    let page = PageId {
        seg: SegId(seg),
        index,
    };
    alone(Command::Book(page), words)
}

/// The command, if no word is left.
fn alone(command: Command, words: Words<'_>) -> Option<Command>
    ensures alone { result ≡ said.alone command words.entry }
    ensures same { IfSome result (λ c. c ≡ command) }
{
    if !words.is_empty() {
        return None;
    }
    Some(command)
}

/// A line of a script.
fn script_command(bytes: &[u8]) -> Option<Command>
    ensures command { result ≡ said.scripted bytes.now }
    ensures is_line { IfSome result said.IsCommand }
{
    laws::lines_have_one_spelling();
    let Ok(line) = parse_line(bytes) else {
        return None;
    };
    Some(Command::Line(line))
}

fn sites(bytes: &[u8], words: Words<'_>) -> Option<Command>
    ensures command { result ≡ said.sites_of bytes.now words.entry }
    ensures is_line { IfSome result said.IsCommand }
{
    if words.is_empty() {
        return Some(Command::Sites);
    }
    script_command(bytes)
}

fn run(words: Words<'_>) -> Option<Command>
    ensures command { result ≡ said.run_of words.entry }
    ensures is_line { IfSome result said.IsCommand }
{
    if words.is_empty() {
        return Some(Command::Run(MOST_BY_DEFAULT));
    }
    let (most, words) = words.number()?;
    alone(Command::Run(most), words)
}

fn save(words: Words<'_>) -> Option<Command>
    ensures command { result ≡ said.save_of words.entry }
    ensures is_line { IfSome result said.IsCommand }
{
    let (_name, words) = words.word()?;
    alone(Command::Save, words)
}
