//! Notes of the prompt: which lines have one, and how pictures read what is saved.
use super::prompt_dialogs::{saved_by, told_on};
use shm_draw::parse_captions;
use std::alloc::Global;
use std::process::Abort;
use std::test::Fail;

/// What is typed before the notes are saved, and what is saved.
const SAVED: [(&str, &str); 6] = [
    ("sites 1\n", ""),
    (
        "sites 2 preset 1\nnote it's the opening\nload 1 0 0\nnote a\nflight\nnote  the reader asks\nrun\nnote it reads: é\n",
        "1 it's the opening\n2  the reader asks\n6 it reads: é\n",
    ),
    (
        "sites 1\nnote a\ntick 0\nnote b\ntick 0\nnote c\nback 1\nopen wrong\nsave a\n",
        "1 a\n2 b\n",
    ),
    (
        "sites 1 preset 1\nnote a\nstore 0 0 0 7\nload 0 0 0\nnote b\nundo\ntick 0\nshow 0 0\n",
        "1 a\n",
    ),
    ("sites 1\ntick 0\nnote a\nsites 1\ntick 0\n", ""),
    ("sites 1\ntick 0\nnote a\nopen early\n", ""),
];

/// These notes are saved once this is typed; pictures have these captions.
fn expect_notes(rt: &impl Abort, alloc: Global, typed: &str, notes: &str) -> Result<(), Fail> {
    let whole = format!(in alloc; "{typed}notes n\n")?;
    let saved = saved_by(rt, alloc, whole.as_bytes(), b"saved to n\n")?;
    assert_eq!(rt; std::str::from_utf8(saved.as_slice()), Ok(notes));
    assert_eq!(rt;
        reads_as(alloc, saved.as_slice()),
        Some(notes.lines().count())
    );
    Ok(())
}

/// Notes of lines that stand no more are gone, and one for each other line is saved; pictures have these captions.
#[test]
fn notes_are_saved(rt: HostRuntime) -> Result<(), Fail> {
    for (typed, notes) in SAVED {
        expect_notes(&rt, rt.alloc(), typed, notes)?;
    }
    Ok(())
}

/// How many captions pictures read there.
fn reads_as(alloc: Global, notes: &[u8]) -> Option<usize> {
    match parse_captions(alloc, notes) {
        Ok(captions) => Some(captions.len()),
        Err(_) => None,
    }
}

/// Texts at the limits of what pictures take.
const TEXTS: [&[u8]; 12] = [
    b"",
    b" ",
    b"a",
    b"\xc3\xa9",
    b"\xc3",
    b"\xff",
    b"a\tb",
    b"a\r",
    b"\x7f",
    b"\xc2\x85",
    b"\xc2\xa0",
    b"\xef\xbf\xbf",
];

/// Whether the prompt takes the text as a note.
fn is_noted(rt: &impl Abort, alloc: Global, text: &[u8]) -> Result<bool, Fail> {
    let mut typed = Vec::from_slice(alloc, b"sites 1\nnote ".as_slice())?;
    typed.extend_from_slice(text)?;
    typed.push(b'\n')?;
    let told = told_on(rt, alloc, typed.as_slice());
    Ok(told.as_slice().ends_with(b"1 noted\n"))
}

/// Whether pictures take it as a caption.
fn is_caption(alloc: Global, text: &[u8]) -> Result<bool, Fail> {
    let mut note = Vec::from_slice(alloc, b"1 ".as_slice())?;
    note.extend_from_slice(text)?;
    Ok(reads_as(alloc, note.as_slice()) == Some(1))
}

/// The prompt takes a text as a note where pictures take it as a caption.
#[test]
fn pictures_take_what_is_noted(rt: HostRuntime) -> Result<(), Fail> {
    for text in TEXTS {
        let is_taken = is_caption(rt.alloc(), text)?;
        assert_eq!(rt; is_noted(&rt, rt.alloc(), text)?, is_taken);
    }
    Ok(())
}
