//! Captions: which notes have them, and where they stand on the picture.

use shm_debug::DebugFault;
use shm_draw::{Caption, CaptionFault, draw, parse_captions};
use std::alloc::{AllocError, Global};
use std::process::Abort;
use std::test::Fail;

const SCRIPT: &[u8] = b"sites 2 preset 2\nload 1 0 0\nload 1 0 4096\n";

/// The picture has four rows of lines 1 to 3, of which notes name two; no row has number 4.
const NOTES: &[u8] = b"2 a < b & c > \xc3\xa9\n\n1 it's the opening\n4 no row is here at all\n";

/// Both pages' pictures have them at the end.
const CAPTIONS: &str = "\
<text style='font-style:italic;fill:#850' x='680' y='100' dy='4'>a &lt; b &amp; c &gt; é</text>\n\
<text style='font-style:italic;fill:#850' x='680' y='78' dy='4'>it's the opening</text>\n\
</g>\n";

/// How the script is drawn with these captions, and what is written.
fn drawn_with(alloc: Global, captions: &[Caption<'_>]) -> (Result<(), DebugFault>, Vec<u8>) {
    let mut reader = SCRIPT;
    let mut text = Vec::new(alloc);
    let result = draw(alloc, &mut reader, &mut text, None, captions);
    (result, text)
}

/// How often this part stands in the text.
fn count(text: &[u8], part: &[u8]) -> usize {
    let mut found = 0usize;
    for at in 0..text.len() {
        if text[at..].starts_with(part) {
            found = found.saturating_add(1);
        }
    }
    found
}

/// The picture is drawn, and begins so. The captions of both notes stand in it so often, and a caption's style so often.
fn expect_picture(
    rt: &impl Abort,
    drawn: (Result<(), DebugFault>, Vec<u8>),
    begin: &[u8],
    captions: usize,
    styles: usize,
) {
    let (result, text) = drawn;
    assert_eq!(rt; result, Ok(()));
    assert!(rt; text.as_slice().starts_with(begin));
    assert_eq!(rt; count(text.as_slice(), CAPTIONS.as_bytes()), captions);
    assert_eq!(rt; count(text.as_slice(), b"font-style"), styles);
}

/// Each picture has the captions of its rows, with entities, right of where it would end; and the whole is so much wider.
#[test]
fn captions_stand_beside_their_rows(rt: HostRuntime) -> Result<(), Fail> {
    let Ok(captions) = parse_captions(rt.alloc(), NOTES) else {
        return Err(Fail::new("notes"));
    };
    let drawn = drawn_with(rt.alloc(), captions.as_slice());
    let begin = b"<svg xmlns='http://www.w3.org/2000/svg' width='864' height=";
    expect_picture(&rt, drawn, begin, 2, 4);
    Ok(())
}

/// Without captions nothing is wider, and there is no text of a caption.
#[test]
fn a_picture_without_captions(rt: HostRuntime) {
    let drawn = drawn_with(rt.alloc(), &[]);
    let begin = b"<svg xmlns='http://www.w3.org/2000/svg' width='680' height=";
    expect_picture(&rt, drawn, begin, 0, 0);
}

/// The number of the first line that is no note, or how many captions there are.
fn read_notes(alloc: Global, notes: &[u8]) -> Result<usize, CaptionFault> {
    match parse_captions(alloc, notes) {
        Ok(captions) => Ok(captions.len()),
        Err(fault) => Err(fault),
    }
}

/// Notes, and how many captions they have.
const TAKEN: [(&[u8], usize); 6] = [
    (b"", 0),
    (b"\n\n", 0),
    (b"1 a", 1),
    (b"1  a\n1 b\n", 2),
    (b"18446744073709551615 \n", 1),
    (b"\n7 \xe2\x82\xac \xf0\x9f\x98\x80\n", 1),
];

#[test]
fn notes_that_are_taken(rt: HostRuntime) {
    for (notes, many) in TAKEN {
        assert_eq!(rt; read_notes(rt.alloc(), notes), Ok(many));
    }
}

/// A number that isn't one, no blank, a control character, no UTF-8, and a character that no XML text has; and the number of the wrong line.
const REFUSED: [(&[u8], u64); 13] = [
    (b"0 a\n", 1),
    (b"01 a\n", 1),
    (b" a\n", 1),
    (b"1 a\n\nx a\n", 3),
    (b"18446744073709551616 a\n", 1),
    (b"1\n", 1),
    (b"1\ta\n", 1),
    (b"1 a\r\n", 1),
    (b"1 a\x7f\n", 1),
    (b"1 \xc2\x85\n", 1),
    (b"1 \xff\n", 1),
    (b"1 \xef\xbf\xbf\n", 1),
    (b"1 a\n2 \xc3", 2),
];

#[test]
fn notes_that_are_refused(rt: HostRuntime) {
    for (notes, number) in REFUSED {
        assert_eq!(rt;
            read_notes(rt.alloc(), notes),
            Err(CaptionFault::BadNote(number))
        );
    }
}

/// A note of line 1, with so many letters.
fn note_of(alloc: Global, letters: usize) -> Result<Vec<u8>, AllocError> {
    let mut notes = Vec::from_slice(alloc, b"1 ".as_slice())?;
    for _ in 0..letters {
        notes.push(b'a')?;
    }
    Ok(notes)
}

/// A text has 200 bytes at most.
#[test]
fn the_longest_note(rt: HostRuntime) -> Result<(), AllocError> {
    let longest = note_of(rt.alloc(), 200)?;
    assert_eq!(rt; read_notes(rt.alloc(), longest.as_slice()), Ok(1));
    let longer = note_of(rt.alloc(), 201)?;
    assert_eq!(rt;
        read_notes(rt.alloc(), longer.as_slice()),
        Err(CaptionFault::BadNote(1))
    );
    Ok(())
}
