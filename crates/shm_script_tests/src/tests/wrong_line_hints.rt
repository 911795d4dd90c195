//! What is told of a line that can't be read.
use shm_lines::{
    RecallingReader, hint_of_access_line, hint_of_first_line, hint_of_script_line, write_hint,
};
use shm_place::Sites;
use std::io::Read;
use std::test::Fail;

#[test]
fn a_line_is_told_with_a_caret(rt: HostRuntime) -> Result<(), Fail> {
    let line = b"load 0 0x 4".as_slice();
    let hint = hint_of_script_line(line).ok_or("a right line")?;
    let mut out = Vec::new(rt.alloc());
    write_hint(&mut out, line, &hint)?;
    let told =
        b"load 0 0x 4\n        ^ an attachment's number: digits, with no zero before others\n";
    assert_eq!(rt; out.as_slice(), told.as_slice());
    Ok(())
}

#[test]
fn places_are_found(rt: HostRuntime) -> Result<(), Fail> {
    let cases = [
        (
            b"".as_slice(),
            0,
            "a verb, such as load, store, deliver, tick or show",
        ),
        (
            b"lode 1",
            2,
            "a verb, such as load, store, deliver, tick or show",
        ),
        (
            b"tick",
            4,
            "one blank, and a site's number: digits, with no zero before others",
        ),
        (b"tick 1 2", 6, "the end of the line"),
        (b"sites 17", 7, "how many sites: a number from 1 to 16"),
        (b"sites 3 preset 4 frame", 22, "the word frames"),
        (b"get 0 1 1 7 4096 1777 c", 20, "a mode: three octal digits"),
    ];
    for (line, at, expected) in cases {
        let hint = hint_of_script_line(line).ok_or("a right line")?;
        assert_eq!(rt; hint.at, at);
        let told = format!(in rt.alloc(); "{}", hint.expected)?;
        assert_eq!(rt; told.as_str(), expected);
    }
    Ok(())
}

#[test]
fn a_line_is_recalled(rt: HostRuntime) -> Result<(), Fail> {
    let mut reader = RecallingReader::new(b"one\ntwo\nthree".as_slice());
    let mut chunk = [0u8; 6];
    for _ in 0..4 {
        let _ = reader.read(&mut chunk)?;
    }
    assert!(rt; reader.line(1).is_none());
    assert_eq!(rt; reader.line(3).ok_or("forgotten")?, b"three".as_slice());
    assert!(rt; reader.line(4).is_none());
    Ok(())
}

#[test]
fn a_workload_is_told_too(rt: HostRuntime) -> Result<(), Fail> {
    let sites = Sites::new(3).ok().ok_or("too many")?;
    let hint = hint_of_first_line(b"preset 257").ok_or("a right line")?;
    assert_eq!(rt; hint.at, 9);
    let hint = hint_of_access_line(sites, 1, b"store 2 4096 0").ok_or("a right line")?;
    assert_eq!(rt; hint.at, 11);
    let told = format!(in rt.alloc(); "{}", hint.expected)?;
    assert_eq!(rt; told.as_str(), "an offset below 4096");
    assert!(rt; hint_of_access_line(sites, 1, b"load 2 4095").is_none());
    Ok(())
}
