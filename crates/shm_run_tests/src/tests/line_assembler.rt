//! What of that which is typed is done, and under which names scripts are saved.
use shm_prompt::{ReadRefusal, SaveFile, prompt};
use std::alloc::{Allocator, Global};
use std::io::{self, ErrorKind};
use std::test::Fail;

/// All that was saved, each file as its name, a colon and its bytes; a name that begins with `full` is refused.
#[derive(Drop)]
struct Shelf {
    saved: Vec<u8>,
    alloc: Global,
}

impl SaveFile for Shelf {
    ghost use Rattle.std.specs.Prelude.{None, ⊤};

    ghost saves = { λ _. None };

    ghost gives = { λ _ _ _. ⊤ };

    fn save(&mut self, name: &str, bytes: &[u8]) -> io::Result<()> {
        if name.starts_with("full") {
            return Err(io::Error::from(ErrorKind::Other));
        }
        let head = format!(in self.alloc; "{name}:")?;
        self.saved.extend_from_slice(head.as_bytes())?;
        self.saved.extend_from_slice(bytes)?;
        Ok(())
    }

    fn read<A: Allocator + Copy>(&self, alloc: A, name: &str) -> Result<Vec<u8, A>, ReadRefusal> {
        match name.as_bytes().to_vec(alloc) {
            Ok(bytes) => Ok(bytes),
            Err(_) => Err(ReadRefusal::OutOfMemory),
        }
    }
}

/// The longest name that a line of 200 bytes can have behind `save `.
const LONGEST: usize = 195;

/// What is typed, what is told, and what is saved.
const CASES: [(&str, &str, &str); 7] = [
    (
        "save a\n",
        "no sites stand yet: begin with a line as sites 2 preset 1\n",
        "",
    ),
    ("sites 1\ntick 0", "1 ready\n", ""),
    ("sites 1\nquit\ntick 0\nsave a\n", "1 ready\n", ""),
    (
        "sites 1\nsave full\n",
        "1 ready\nnot saved: full can't be written\n",
        "",
    ),
    (
        "sites 1\nsave a\nsave b c\nsave b\n",
        "1 ready\nsaved to a\nexpected: save FILE, where FILE is one word\nsaved to b\n",
        "a:sites 1\nb:sites 1\n",
    ),
    (
        "sites 1\nsave \x1b[2J\n",
        "1 ready\nnot saved: the file's name is no text\n",
        "",
    ),
    (
        "sites 1\nundo\nsave a\n",
        "1 ready\n1 refused 28: no event that stands has changed anything\nsaved to a\n",
        "a:sites 1\n",
    ),
];

/// Whether a script is saved under a name of so many letters.
fn is_saved_under(alloc: Global, letters: usize) -> Result<bool, Fail> {
    let name = "a".repeat(alloc, letters)?;
    let typed = format!(in alloc; "sites 1\nsave {name}\n")?;
    let told = format!(in alloc; "1 ready\nsaved to {name}\n")?;
    let saved = format!(in alloc; "{name}:sites 1\n")?;
    comes_to(alloc, typed.as_str(), told.as_str(), saved.as_str())
}

/// Whether a line with a name of so many letters is too long.
fn is_too_long(alloc: Global, letters: usize) -> Result<bool, Fail> {
    let name = "a".repeat(alloc, letters)?;
    let typed = format!(in alloc; "sites 1\nsave {name}\n")?;
    let told = "1 ready\na line has at most 200 bytes\n";
    comes_to(alloc, typed.as_str(), told, "")
}

/// A line is done once and whole: not one that is too long, nor what stands behind the last line feed or behind `quit`.
#[test]
fn lines_are_done_once_and_whole(rt: HostRuntime) -> Result<(), Fail> {
    for (typed, told, saved) in CASES {
        assert!(rt; comes_to(rt.alloc(), typed, told, saved)?, "{typed}");
    }
    assert!(rt; is_saved_under(rt.alloc(), LONGEST)?);
    assert!(rt; is_too_long(rt.alloc(), LONGEST + 1)?);
    Ok(())
}

/// Whether what is typed at once is told this, and this is saved.
fn comes_to(alloc: Global, typed: &str, told: &str, saved: &str) -> Result<bool, Fail> {
    let mut reader = typed.as_bytes();
    let mut text = Vec::new(alloc);
    let mut files = Shelf {
        saved: Vec::new(alloc),
        alloc,
    };
    if prompt(alloc, &mut reader, &mut text, &mut files, false).is_err() {
        return Err(Fail::new("a dialog that ended early"));
    }
    Ok(text.as_slice() == told.as_bytes() && files.saved.as_slice() == saved.as_bytes())
}
