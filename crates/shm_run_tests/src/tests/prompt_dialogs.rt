//! Dialogs of the prompt: typed line by line, at once or at a terminal, saved and replayed.
use shm_debug::replay;
use shm_prompt::{PromptFault, ReadRefusal, SaveFile, prompt};
use std::alloc::{Allocator, Global};
use std::cell::Cell;
use std::io::{self, ErrorKind, Read, Write};
use std::process::Abort;
use std::test::Fail;

/// The file that was saved last, if one was.
#[derive(Drop)]
pub(super) struct Shelf {
    saved: Option<Vec<u8>>,
    alloc: Global,
}

impl SaveFile for Shelf {
    ghost use Rattle.std.specs.Prelude.{None, ⊤};

    ghost saves = { λ _. None };

    ghost gives = { λ _ _ _. ⊤ };

    fn save(&mut self, name: &str, bytes: &[u8]) -> io::Result<()> {
        if name == "full" {
            return Err(io::Error::from(ErrorKind::Other));
        }
        self.saved = Some(bytes.to_vec(self.alloc)?);
        Ok(())
    }

    fn read<A: Allocator + Copy>(&self, alloc: A, name: &str) -> Result<Vec<u8, A>, ReadRefusal> {
        if name == "long" {
            return Err(ReadRefusal::TooLong);
        }
        match &self.saved {
            Some(bytes) if name == "a" => copied(alloc, bytes.as_slice()),
            _ => copied(alloc, shelved(name)?),
        }
    }
}

fn copied<A: Allocator + Copy>(alloc: A, bytes: &[u8]) -> Result<Vec<u8, A>, ReadRefusal> {
    match bytes.to_vec(alloc) {
        Ok(copy) => Ok(copy),
        Err(_) => Err(ReadRefusal::OutOfMemory),
    }
}

/// Files that lie there from the beginning.
const SHELVED: [(&str, &str); 5] = [
    ("wrong", "sites 2\ntick 0\nloud\nloud\n"),
    ("early", "tick 0\nsites 1\ntick 0\n"),
    ("siteless", "tick 0\n"),
    ("unended", "sites 1\ntick 0"),
    ("nothing", ""),
];

fn shelved(name: &str) -> Result<&'static [u8], ReadRefusal> {
    for (shelved, script) in SHELVED {
        if shelved == name {
            return Ok(script.as_bytes());
        }
    }
    Err(ReadRefusal::Unread)
}

pub(super) fn empty_shelf(alloc: Global) -> Shelf {
    Shelf { saved: None, alloc }
}

/// What a reader and a writer both see.
#[derive(Drop)]
struct Seen {
    /// How many bytes were taken before the last flush.
    flushed: Cell<usize>,
    reads: Cell<usize>,
    /// The reads before which some text was missing, or text came too early.
    wrong: Cell<usize>,
}

fn count(cell: &Cell<usize>) {
    cell.set(cell.get().saturating_add(1));
}

/// Gives a line a read. At each read it looks whether what is told to the lines before was flushed, and no more.
#[derive(Drop)]
struct Typing<'a> {
    given: usize,
    seen: &'a Seen,
}

impl Typing<'_> {
    fn look(&self) {
        let mut told = 0usize;
        for answer in TOLD.iter().take(self.seen.reads.get()) {
            told = told.saturating_add(answer.len());
        }
        if self.seen.flushed.get() != told {
            count(&self.seen.wrong);
        }
        count(&self.seen.reads);
    }
}

impl Read for Typing<'_> {
    fn read(&mut self, buf: &mut [u8]) -> io::Result<usize> {
        self.look();
        let Some(line) = TYPED.get(self.given) else {
            return Ok(0);
        };
        self.given = self.given.saturating_add(1);
        let count = line.len().min(buf.len());
        buf[..count].copy_from_slice(&line.as_bytes()[..count]);
        Ok(count)
    }
}

/// Takes all that is written, and tells at each flush how much that is.
#[derive(Drop)]
struct Screen<'a> {
    text: Vec<u8>,
    seen: &'a Seen,
}

impl Write for Screen<'_> {
    fn write(&mut self, buf: &[u8]) -> io::Result<usize> {
        match self.text.extend_from_slice(buf) {
            Ok(()) => Ok(buf.len()),
            Err(_) => Err(io::Error::from(ErrorKind::OutOfMemory)),
        }
    }

    fn flush(&mut self) -> io::Result<()> {
        self.seen.flushed.set(self.text.len());
        Ok(())
    }
}

const TYPED: [&str; 13] = [
    "load 1 0 0\n",
    "sites 2 preset 1\n",
    "load 1 0 0\n",
    "flight\n",
    "loud\n",
    "store 0 0 x 1\n",
    "run 01\n",
    "run 1\n",
    "run\n",
    "sites\n",
    "segments\n",
    "undo\n",
    "quit\n",
];

/// What is told to each of these lines.
const TOLD: [&str; 13] = [
    "no sites stand yet: begin with a line as sites 2 preset 1\n",
    "1 ready\n",
    "2 fault m0>0:Ask\n",
    "m0 1>0 Ask page 0 0 request 1 to read\n",
    "expected a command: `help` lists them\n",
    "store 0 0 x 1\n          ^ an offset: digits, with no zero before others\n",
    "expected: run, or run N with N from 0 to 4294967295, with no zero before other digits\n",
    "3 took m1>0:Hand\nstopped at the bound of 1: more is on its way\n",
    "4 took m2>1:Page\n5 took m3>0:Confirm\n6 took\nnothing is on its way\n",
    "page        site 0        site 1        manager\n0 0         OwnRead/1     Copy/1        0: owner 0 copies 1 t 1 idle\n",
    "key        shmid      owner      perms      bytes      nattch     status\n0x00000000 0          0          666        4096       2          \n",
    "5 back 4: deliver 3\n",
    "",
];

/// What a dialog answers, and what is told in it.
pub(super) type Dialog = (Result<(), PromptFault>, Vec<u8>);

/// The dialog of one who types line by line.
fn type_slowly(alloc: Global, seen: &Seen) -> Dialog {
    let mut reader = Typing { given: 0, seen };
    let mut writer = Screen {
        text: Vec::new(alloc),
        seen,
    };
    let mut files = empty_shelf(alloc);
    let result = prompt(alloc, &mut reader, &mut writer, &mut files, false);
    (result, writer.text)
}

/// The dialog ends well, and this is told in it.
fn expect_dialog(rt: &impl Abort, dialog: Dialog, told: &str) {
    let (result, text) = dialog;
    assert_eq!(rt; result, Ok(()));
    assert_eq!(rt; std::str::from_utf8(text.as_slice()), Ok(told));
}

/// Each answer is written and flushed before the next line is read, and no more than it.
#[test]
fn each_line_is_answered_before_the_next(rt: HostRuntime) -> Result<(), Fail> {
    let seen = Seen {
        flushed: Cell::new(0),
        reads: Cell::new(0),
        wrong: Cell::new(0),
    };
    let told = TOLD.concat(rt.alloc())?;
    expect_dialog(&rt, type_slowly(rt.alloc(), &seen), told.as_str());
    assert_eq!(rt; (seen.wrong.get(), seen.reads.get()), (0, 13));
    Ok(())
}

/// A byte that no terminal should be told is shown as a question mark.
#[test]
fn bytes_that_are_no_text_are_not_told(rt: HostRuntime) {
    let told = "load 01 ?[2J?\n      ^ a site's number: digits, with no zero before others\n\
expected a command: `help` lists them\n";
    expect_dialog(
        &rt,
        dialog_on(rt.alloc(), b"load 01 \x1b[2J\xff\n\x1b[2J\n"),
        told,
    );
}

/// What is answered to bytes that are typed at once, and what is saved.
fn type_at_once(alloc: Global, bytes: &[u8]) -> (Dialog, Option<Vec<u8>>) {
    let mut reader = bytes;
    let mut text = Vec::new(alloc);
    let mut files = empty_shelf(alloc);
    let result = prompt(alloc, &mut reader, &mut text, &mut files, false);
    ((result, text), files.saved)
}

/// What is answered to bytes that are typed at once.
fn dialog_on(alloc: Global, bytes: &[u8]) -> Dialog {
    let (dialog, _saved) = type_at_once(alloc, bytes);
    dialog
}

/// What is told to bytes that are typed at once. The dialog ends well.
pub(super) fn told_on(rt: &impl Abort, alloc: Global, bytes: &[u8]) -> Vec<u8> {
    let (result, text) = dialog_on(alloc, bytes);
    assert_eq!(rt; result, Ok(()));
    text
}

/// What is saved last by bytes that are typed at once. The dialog ends well, and with this text.
pub(super) fn saved_by(
    rt: &impl Abort,
    alloc: Global,
    bytes: &[u8],
    end: &[u8],
) -> Result<Vec<u8>, Fail> {
    let ((result, text), saved) = type_at_once(alloc, bytes);
    assert_eq!(rt; result, Ok(()));
    assert!(rt; text.as_slice().ends_with(end));
    Ok(saved.ok_or("a file")?)
}

/// What is typed, and what is told.
const DIALOGS: [(&str, &str); 13] = [
    (
        "sites 2 preset 1\nstore 0 0 0 7\n  load 0 0 0\nload 0 0 0\nload 0 5 0\nundo\nundo\nexit\nload 0 0 0\n",
        "1 ready\n2 stored\n3 byte 7\n4 byte 7\n5 refused 9: site 0 has no such attachment\n\
1 back 0: store 0 0 0 7\n1 refused 28: no event that stands has changed anything\n",
    ),
    (
        "undo\nbook 0 0\n",
        "no sites stand yet: begin with a line as sites 2 preset 1\n\
no sites stand yet: begin with a line as sites 2 preset 1\n",
    ),
    (
        "sites 2 preset 1\nload 9 0 0\ndeliver 4\nload 0 0 4096\nshow 131072 0\nback 9\nget 1 0 0 7 1 600 c\nget 1 0 0 7 1 600 c\n",
        "1 ready\n2 refused 14: there is no site 9\n\
3 refused 15: no message is on its way under number 4\n\
4 refused 11: site 0 has no such offset at this attachment\n\
4 refused 16: no segment can have that page\n\
4 refused 28: events that stand: 3\n\
5 began 1 m0>1:Call\n\
6 refused 8: site 1 waits for the reply to a segment call\n",
    ),
    (
        "sites 3 preset 1\nstore 1 0 0 7\nload 2 0 0\nget 1 0 0 7 1 600 c\ndeliver 0\ndeliver 1\nbook 0 0\nsites\n",
        "1 ready\n2 fault m0>0:Ask\n3 fault m1>0:Ask\n4 began 1 m2>1:Call\n5 took m3>0:Hand\n6 took\n\
page        site 0        site 1        site 2        manager\n\
0 0         OwnWrite/0    Nil/0         Nil/0         0: owner 0 copies - t 1 write 1 then read 2\n\
site 1 waits for page 0 0 to write, request 1\n\
site 2 waits for page 0 0 to read, request 1\n\
page        site 0        site 1        site 2        manager\n\
0 0         OwnWrite/0    Nil/0         Nil/0         0: owner 0 copies - t 1 write 1 then read 2\n\
site 1 waits for page 0 0 to write, request 1\n\
site 1 waits for the reply to call 1\n\
site 2 waits for page 0 0 to read, request 1\n",
    ),
    (
        "sites 3 preset 1\nload 1 0 0\nrun\nload 2 0 0\nrun\nstore 0 0 0 9\ndeliver 8\ndeliver 9\ndeliver 11\nbook 0 0\nbook 0 300\n",
        "1 ready\n2 fault m0>0:Ask\n3 took m1>0:Hand\n4 took m2>1:Page\n5 took m3>0:Confirm\n6 took\nnothing is on its way\n\
7 fault m4>0:Ask\n8 took m5>0:Hand\n9 took m6>2:Page\n10 took m7>0:Confirm\n11 took\nnothing is on its way\n\
12 fault m8>0:Ask\n13 took m9>1:Clear m10>2:Clear\n14 took m11>0:Cleared\n15 took\n\
page        site 0        site 1        site 2        manager\n\
0 0         OwnRead/2     Nil/3         Copy/2        0: owner 0 copies 1,2 t 3 write 0 cleared 1\n\
site 0 waits for page 0 0 to write, request 1\n\
no segment can have that page\n",
    ),
    (
        "? 1\nexit now\nbook 0\nbook 0 x\n",
        "expected: help\nexpected: quit\nexpected: book SEGMENT PAGE\nexpected: book SEGMENT PAGE\n",
    ),
    (
        "sites 1 preset 1\nopen a\nstore 0 0 0 7\nsave a\nsites 3\nopen b\nopen a\nload 0 0 0\nopen\n",
        "1 ready\nnot opened: a can't be read\n2 stored\nsaved to a\n1 ready\nnot opened: b can't be read\n\
1 ready\n2 stored\n3 byte 7\nexpected: open FILE, where FILE is one word\n",
    ),
    (
        "sites 1\ntick 0\nopen wrong\nopen siteless\nopen nothing\nopen long\nopen b\nopen \x1b[2J\ntick 0\n",
        "1 ready\n2 took\nnot opened: line 3 is none of a script\nnot opened: no line begins the sites\n\
not opened: no line begins the sites\nnot opened: long is longer than any script\nnot opened: b can't be read\n\
not opened: the file's name is no text\n3 took\n",
    ),
    (
        "open early\nopen unended\ntick 0\n",
        "no sites stand yet: begin with a line as sites 2 preset 1\n1 ready\n2 took\n1 ready\n2 took\n",
    ),
    (
        "note a\nnotes n\nsites 1\nnote\nnote \x1b[2J\nnote a\u{85}\nnote a\nnotes full\nnotes\nnotes n\n",
        "no sites stand yet: begin with a line as sites 2 preset 1\nno sites stand yet: begin with a line as sites 2 preset 1\n\
1 ready\nexpected: note TEXT\nnot noted: a note has at most 200 bytes, in UTF-8 without control characters\n\
not noted: a note has at most 200 bytes, in UTF-8 without control characters\n1 noted\nnot saved: full can't be written\n\
expected: notes FILE, where FILE is one word\nsaved to n\n",
    ),
    (
        "sites 1 preset 1\nget 0 0 0 7 1 600 c\nflight\ndeliver 0\ndeliver 1\nsegments\n",
        "1 ready\n2 began 1 m0>0:Call\nm0 0>0 Call number 1\n3 took m1>0:Reply\n4 replied 1 id 1\n\
key        shmid      owner      perms      bytes      nattch     status\n\
0x00000000 0          0          666        4096       1          \n\
0x00000007 1          0          600        1          0          \n",
    ),
    (
        "sites 2 preset 3\nload 1 0 0\nload 1 0 8192\nbook 0 0\n",
        "1 ready\n2 fault m0>0:Ask\n3 fault m1>0:Ask\n\
page        site 0        site 1        manager\n\
0 0         OwnWrite/0    Nil/0         0: owner 0 copies - t 0 idle\n\
site 1 waits for page 0 0 to read, request 1\n",
    ),
    ("quit\n? \n", ""),
];

/// Each command is told what stands here, and what it takes back is gone.
#[test]
fn commands_are_told(rt: HostRuntime) {
    for (typed, told) in DIALOGS {
        expect_dialog(&rt, dialog_on(rt.alloc(), typed.as_bytes()), told);
    }
}

/// A terminal: each read gives a line, or where one is empty the input's end, which may come again.
#[derive(Drop)]
struct Terminal<'a> {
    lines: &'a [&'static str],
    given: usize,
}

impl Read for Terminal<'_> {
    fn read(&mut self, buf: &mut [u8]) -> io::Result<usize> {
        let Some(line) = self.lines.get(self.given) else {
            return Err(io::Error::from(ErrorKind::Other));
        };
        self.given = self.given.saturating_add(1);
        let count = line.len().min(buf.len());
        buf[..count].copy_from_slice(&line.as_bytes()[..count]);
        Ok(count)
    }
}

const GREETING: &str = "shmdbg prompt: `help` lists what you may type, `exit` or Ctrl-D ends.
`rlwrap shmdbg prompt` keeps a history of lines and edits them.
";

/// What is typed at a terminal, read by read, and what is told behind the greeting.
const AT_TERMINAL: [(&[&str], &str); 8] = [
    (&[""], "> \n"),
    (&["exit\n"], "> "),
    (
        &["sites 1\n", "", ""],
        "> 1 ready\n> \nwhat stands is not saved: `save FILE` first, or Ctrl-D again\n> \n",
    ),
    (
        &["sites 1\ntick 0\nsave a\nundo\n", "", ""],
        "> 1 ready\n2 took\nsaved to a\n1 back 0: tick 0\n> \nwhat stands is not saved: `save FILE` first, or Ctrl-D again\n> \n",
    ),
    (
        &["sites 1\n", "save full\n", "", "save a\n", "help x\n", ""],
        "> 1 ready\n> not saved: full can't be written\n\
> \nwhat stands is not saved: `save FILE` first, or Ctrl-D again\n\
> saved to a\n> expected: help\n> \n",
    ),
    (
        &[
            "sites 1\nsa",
            "ve a\n",
            "undo\nsave b\n",
            "tick 0\n",
            "",
            "",
        ],
        "> 1 ready\nsaved to a\n> 1 refused 28: no event that stands has changed anything\nsaved to b\n> 2 took\n\
> \nwhat stands is not saved: `save FILE` first, or Ctrl-D again\n> \n",
    ),
    (
        &[
            "sites 1\nnote a\n",
            "",
            "save a\nnotes full\n",
            "note b\n",
            "",
            "notes n\n",
            "",
        ],
        "> 1 ready\n1 noted\n> \nwhat stands is not saved: `save FILE` first, or Ctrl-D again\n\
notes are not saved: `notes FILE` first, or Ctrl-D again\n> saved to a\nnot saved: full can't be written\n> 1 noted\n\
> \nnotes are not saved: `notes FILE` first, or Ctrl-D again\n> saved to n\n> \n",
    ),
    (
        &[
            "sites 1\nnote a\ntick 0\nnote b\nnotes n\nback 1\nsave a\n",
            "",
            "note c\nsites 1\nsave a\n",
            "",
        ],
        "> 1 ready\n1 noted\n2 took\n2 noted\nsaved to n\n1 back 0\nsaved to a\n\
> \nnotes are not saved: `notes FILE` first, or Ctrl-D again\n> 1 noted\n1 ready\nsaved to a\n> \n",
    ),
];

/// The dialog with a person who types these lines, and how many were read.
fn type_at_terminal(alloc: Global, lines: &[&'static str]) -> (Dialog, usize) {
    let mut reader = Terminal { lines, given: 0 };
    let mut text = Vec::new(alloc);
    let mut files = empty_shelf(alloc);
    let result = prompt(alloc, &mut reader, &mut text, &mut files, true);
    ((result, text), reader.given)
}

/// A person is greeted, sees a mark before each line, and is asked before what isn't saved is lost.
#[test]
fn a_person_is_greeted_and_asked(rt: HostRuntime) -> Result<(), Fail> {
    for (lines, told) in AT_TERMINAL {
        let whole = format!(in rt.alloc(); "{GREETING}{told}")?;
        let (dialog, given) = type_at_terminal(rt.alloc(), lines);
        expect_dialog(&rt, dialog, whole.as_str());
        assert_eq!(rt; given, lines.len());
    }
    Ok(())
}

const KEPT: &str = "sites 2 preset 1
store 0 0 0 7
load 1 0 0
get 1 0 0 5 1 600 c
deliver 0
deliver 1
deliver 2
deliver 3
deliver 4
deliver 5
load 1 0 0
";

/// What is typed until `KEPT` is saved. A save to a full disk, and one to two words, come to nothing.
const SAVING: &[u8] =
    b"sites 3\nsites 2 preset 1\nstore 0 0 0 7\ntick 0\nundo\nload 1 0 0\nshow 0 0\nget 1 0 0 5 1 600 c\nsave full\nrun\nsave a b\nload 1 0 0\nsave a\n";

/// The script replays, and this is told last.
fn expect_replay(rt: &impl Abort, alloc: Global, script: &[u8], end: &[u8]) {
    let mut script = script;
    let mut text = Vec::new(alloc);
    let is_done = replay(alloc, &mut script, &mut text).is_ok();
    assert!(rt; is_done);
    assert!(rt; text.as_slice().ends_with(end));
}

/// What is saved replays to the answers that stand; what was taken back, shown and asked isn't in it.
#[test]
fn what_is_saved_replays(rt: HostRuntime) -> Result<(), Fail> {
    let saved = saved_by(&rt, rt.alloc(), SAVING, b"saved to a\n")?;
    assert_eq!(rt; std::str::from_utf8(saved.as_slice()), Ok(KEPT));
    expect_replay(&rt, rt.alloc(), saved.as_slice(), b"11 byte 7\n");
    Ok(())
}
