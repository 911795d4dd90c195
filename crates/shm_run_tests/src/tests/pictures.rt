//! A small run against its picture as the definitions give it, worked out by hand; and which pages are drawn.

use shm_debug::DebugFault;
use shm_draw::draw;
use shm_place::{PageId, SegId};
use std::alloc::Global;
use std::process::Abort;
use std::test::Fail;

/// An envelope that is repeated, one for the own site, one that is lost, one that isn't there, and three that stay on their way.
const SCRIPT: &[u8] =
    b"sites 2 preset 1\nload 1 0 0\nrepeat 0\ndeliver 1\nlose 2\ndeliver 2\ntick 0\nrestart 1\nload 1 0 0\n";

const HEAD: &str = "<svg xmlns='http://www.w3.org/2000/svg' width='680' height='352'>\n";

const BODY: &str = "\
<g transform='translate(0 0)'>\n\
<use href='#OwnWrite' x='270' y='78'/>\n\
<use href='#Untouched' x='380' y='78'/>\n\
<use href='#OwnWrite' x='270' y='100'/>\n\
<use href='#Untouched' x='380' y='100'/>\n\
<use href='#Request' x='380' y='100'/>\n\
<use href='#OwnWrite' x='270' y='122'/>\n\
<use href='#Untouched' x='380' y='122'/>\n\
<path class='again' d='M380 100L270 122'/>\n\
<use href='#OwnRead' x='270' y='144'/>\n\
<use href='#Untouched' x='380' y='144'/>\n\
<path class='over' d='M270 122C305 122 305 144 270 144'/>\n\
<use href='#OwnRead' x='270' y='166'/>\n\
<use href='#Untouched' x='380' y='166'/>\n\
<path class='lost' d='M270 144L325 166'/>\n\
<use href='#OwnRead' x='270' y='188'/>\n\
<use href='#Untouched' x='380' y='188'/>\n\
<use href='#OwnRead' x='270' y='210'/>\n\
<use href='#Untouched' x='380' y='210'/>\n\
<use href='#Tick' x='270' y='210'/>\n\
<use href='#OwnRead' x='270' y='232'/>\n\
<use href='#Untouched' x='380' y='232'/>\n\
<use href='#Restart' x='380' y='232'/>\n\
<use href='#OwnRead' x='270' y='254'/>\n\
<use href='#Untouched' x='380' y='254'/>\n\
<use href='#Request' x='380' y='254'/>\n\
<path class='fly' d='M380 100L270 276'/>\n\
<path class='fly' d='M270 210C329 210 329 298 270 298'/>\n\
<path class='fly' d='M380 254L270 320'/>\n\
<text class='h' x='8' y='70'>page 0 of segment 0</text>\n\
<text class='s' x='270' y='70'>site 0</text>\n\
<text class='s' x='380' y='70'>site 1</text>\n\
<text class='l' x='8' y='100' dy='4'>2 load 1 0 0</text>\n\
<text class='t' x='380' y='100' dy='4' dx='10'> fault</text>\n\
<text class='l' x='8' y='122' dy='4'>3 repeat 0</text>\n\
<text class='m' x='270' y='122' dy='4' dx='-12' text-anchor='end'>m0 Ask again</text><text class='t' x='294' y='122' dy='4'></text>\n\
<text class='l' x='8' y='144' dy='4'>4 deliver 1</text>\n\
<text class='m' x='270' y='144' dy='4' dx='-12' text-anchor='end'>m1 Hand</text><text class='t' x='305' y='144' dy='4'></text>\n\
<text class='l' x='8' y='166' dy='4'>5 lose 2</text>\n\
<text class='m' x='325' y='166' dy='4' dx='12'>m2 Page lost</text>\n\
<text class='l' x='8' y='188' dy='4'>6 deliver 2</text>\n\
<text class='t' x='258' y='188' dy='4' text-anchor='end'> refused 15</text>\n\
<text class='l' x='8' y='210' dy='4'>7 tick 0</text>\n\
<text class='t' x='270' y='210' dy='4' dx='10'></text>\n\
<text class='l' x='8' y='232' dy='4'>8 restart 1</text>\n\
<text class='t' x='380' y='232' dy='4' dx='10'></text>\n\
<text class='l' x='8' y='254' dy='4'>9 load 1 0 0</text>\n\
<text class='t' x='380' y='254' dy='4' dx='10'> fault</text>\n\
<text class='m' x='270' y='276' dy='4' dx='-12' text-anchor='end'>m0 Ask</text><text class='t' x='294' y='276' dy='4'></text>\n\
<text class='m' x='270' y='298' dy='4' dx='-12' text-anchor='end'>m3 Hand</text><text class='t' x='329' y='298' dy='4'></text>\n\
<text class='m' x='270' y='320' dy='4' dx='-12' text-anchor='end'>m4 Ask</text><text class='t' x='294' y='320' dy='4'></text>\n\
</g>\n\
</svg>\n";

/// How a script is drawn, and what is written.
fn draw_script(
    alloc: Global,
    script: &[u8],
    page: Option<PageId>,
) -> (Result<(), DebugFault>, Vec<u8>) {
    let mut reader = script;
    let mut text = Vec::new(alloc);
    let result = draw(alloc, &mut reader, &mut text, page, &[]);
    (result, text)
}

/// Between the head and the rows stand the style sheet and the legend, which the contract names.
fn expect_small_run(rt: &impl Abort, drawn: (Result<(), DebugFault>, Vec<u8>)) {
    let (result, text) = drawn;
    assert_eq!(rt; result, Ok(()));
    assert!(rt; text.as_slice().starts_with(HEAD.as_bytes()));
    assert!(rt; text.as_slice().ends_with(BODY.as_bytes()));
}

#[test]
fn each_kind_of_arrow(rt: HostRuntime) {
    expect_small_run(&rt, draw_script(rt.alloc(), SCRIPT, None));
}

/// The picture is of what stands: what was taken back, and what is only shown, has no row.
#[test]
fn what_was_taken_back_is_not_drawn(rt: HostRuntime) -> Result<(), Fail> {
    let mut script = Vec::from_slice(rt.alloc(), SCRIPT)?;
    script.extend_from_slice(b"tick 1\nshow 0 0\nback 1\n".as_slice())?;
    expect_small_run(&rt, draw_script(rt.alloc(), script.as_slice(), None));
    Ok(())
}

/// What only the picture of the page has.
const ABSENT: [&str; 5] = ["<text class='m'", "M380", "M270", " fault", "page 0 of"];

/// What the picture of another page has.
const PRESENT: [&str; 5] = [
    "page 1 of segment 0</text>",
    "<text class='e' x='8' y='254' dy='4'>9 load 1 0 0</text>",
    "<text class='e' x='258' y='254' dy='4' text-anchor='end'>page 0 0</text>",
    "refused 15</text>",
    "<use href='#Restart' x='380' y='232'/>",
];

/// All of this stands in the text, or none.
fn expect_parts(rt: &impl Abort, text: &[u8], parts: &[&str], stands: bool) {
    for part in parts {
        assert!(rt; after(text, part.as_bytes()).is_some() == stands, "{part}");
    }
}

/// On the picture of another page there is no ring, no arrow and no answer of this one's accesses and envelopes.
#[test]
fn another_page_is_only_named(rt: HostRuntime) {
    let page = PageId {
        seg: SegId(0),
        index: 1,
    };
    let (result, text) = draw_script(rt.alloc(), SCRIPT, Some(page));
    assert_eq!(rt; result, Ok(()));
    expect_parts(&rt, text.as_slice(), &ABSENT, false);
    expect_parts(&rt, text.as_slice(), &PRESENT, true);
}

/// What a picture of two pages has, in this order.
const TWO_PAGES: [&str; 5] = [
    "height='396'>",
    "<g transform='translate(0 0)'>",
    "page 2 of segment 0</text>",
    "<g transform='translate(0 198)'>",
    "page 1 of segment 0</text>",
];

/// Each page that is touched has its picture, in the order in which they are first touched.
#[test]
fn pages_stand_one_below_the_other(rt: HostRuntime) -> Result<(), Fail> {
    let script: &[u8] =
        b"sites 2 preset 3\nload 0 0 8192\nload 1 0 4096\nload 0 0 8192\nload 1 0 12288\n";
    let (result, text) = draw_script(rt.alloc(), script, None);
    assert_eq!(rt; result, Ok(()));
    let Some(rest) = behind_all(text.as_slice(), &TWO_PAGES) else {
        return Err(Fail::new("two pages"));
    };
    assert!(rt; after(rest, b"<g ").is_none());
    Ok(())
}

/// What stands behind all these parts, where each is the first of its kind behind the one before.
fn behind_all<'a>(text: &'a [u8], parts: &[&str]) -> Option<&'a [u8]> {
    let mut rest = text;
    for part in parts {
        rest = after(rest, part.as_bytes())?;
    }
    Some(rest)
}

/// What stands behind the first such part of the text.
fn after<'a>(text: &'a [u8], part: &[u8]) -> Option<&'a [u8]> {
    for at in 0..text.len() {
        if text[at..].starts_with(part) {
            return text.get(at.saturating_add(part.len())..);
        }
    }
    None
}

/// Scripts, and the number of the first wrong line.
const WRONG: [(&[u8], u64); 3] = [
    (b"", 1),
    (b"sites 1\nload 0 0 0", 2),
    (b"sites 1\ntick 0\nnonsense\n", 3),
];

/// Of a script that has a fault nothing is written.
#[test]
fn nothing_is_written_of_a_wrong_script(rt: HostRuntime) {
    for (script, number) in WRONG {
        let (result, text) = draw_script(rt.alloc(), script, None);
        assert_eq!(rt; result, Err(DebugFault::BadLine(number)));
        assert!(rt; text.is_empty());
    }
}
