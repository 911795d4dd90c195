//! Notes that lie in files, and a script on the input that is drawn with their captions.
use super::{expect, run_over};
use std::fs;
use std::test::Fail;

/// A picture and a page for a browser have the captions.
#[test]
fn a_script_is_drawn_with_notes(rt: HostRuntime) -> Result<(), Fail> {
    let notes = "one.notes";
    fs::write(&rt, notes, b"1 it begins & ends\n")?;
    let caption: &[u8] =
        b"<text style='font-style:italic;fill:#850' x='680' y='78' dy='4'>it begins &amp; ends</text>\n</g>\n</svg>\n";
    for steps in [false, true] {
        let mut reader = b"sites 1 preset 1\n".as_slice();
        let ran = if steps {
            let words = ["shmdbg", "draw", "--steps", "--notes", notes];
            run_over(&rt, &words, &mut reader)
        } else {
            let words = ["shmdbg", "draw", "--notes", notes];
            run_over(&rt, &words, &mut reader)
        };
        assert_eq!(rt; ran.status, 0);
        let text = ran.out.as_slice();
        assert!(rt; (0..text.len()).any(|at| text[at..].starts_with(caption)));
    }
    fs::remove_file(&rt, notes)?;
    Ok(())
}

/// Notes with a wrong line, and none: no script is read.
#[test]
fn notes_that_have_no_captions(rt: HostRuntime) -> Result<(), Fail> {
    let notes = "wrong.notes";
    fs::write(&rt, notes, b"1 it begins\n# mine\n")?;
    let wrong: &[u8] = b"shmdbg: wrong.notes: line 2: bad note\n";
    let missing: &[u8] = b"shmdbg: none.notes: there is no such file\n";
    for (file, status, errors) in [(notes, 1, wrong), ("none.notes", 3, missing)] {
        let mut reader = b"sites 1\n".as_slice();
        let words = ["shmdbg", "draw", "--notes", file];
        let ran = run_over(&rt, &words, &mut reader);
        expect(&rt, &ran, status, b"", errors);
        assert_eq!(rt; reader, b"sites 1\n".as_slice());
    }
    fs::remove_file(&rt, notes)?;
    Ok(())
}
