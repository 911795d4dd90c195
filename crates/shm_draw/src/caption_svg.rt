//! Captions on the picture.
ghost use Rattle.std.specs.Prelude.{◌≡◌, ◌<◌, ◌^◌, ◌++◌, OnOk, string_bytes};
ghost use Rattle.std.specs.Str.{chars};
ghost use Rattle.shm_draw.specs.Captions.{beside_of, besides_of};
ghost use Rattle.shm_draw.specs.Svg;

use crate::caption::Caption;
use crate::svg_geometry::y_of;
use std::alloc::{AllocError, Allocator};

/// Tells the captions of the rows that there are, all from this place on, right of everything else.
pub(crate) fn tell_captions<A: Allocator + Copy>(
    out: &mut String<A>,
    x: u64,
    last: u64,
    captions: &[Caption<'_>],
) -> Result<(), AllocError>
    ensures { OnOk result (string_bytes out.new ≡ string_bytes out.old ++ Svg.captions_text x last (besides_of captions.now)) }
{
    'captions: for caption in captions.iter() {
        tell_caption(out, x, last, caption)?;
    }
    Ok(())
}

/// Tells a caption, if it is of one of the rows.
fn tell_caption<A: Allocator + Copy>(
    out: &mut String<A>,
    x: u64,
    last: u64,
    caption: &Caption<'_>,
) -> Result<(), AllocError>
    ensures { OnOk result (string_bytes out.new ≡ string_bytes out.old ++ Svg.caption_text x last (beside_of caption.now)) }
{
    let row = caption.line.saturating_sub(1);
    if row > last {
        return Ok(());
    }
    tell_beside(out, x, row, caption.text)
}

/// Tells a text beside this row.
fn tell_beside<A: Allocator + Copy>(
    out: &mut String<A>,
    x: u64,
    row: u64,
    text: &str,
) -> Result<(), AllocError>
    ensures { OnOk result (string_bytes out.new ≡ string_bytes out.old ++ Svg.beside_text x row text.now) }
{
    tell_place(out, x, row)?;
    tell_escaped(out, text)?;
    out.push_str("</text>\n")
}

fn tell_place<A: Allocator + Copy>(out: &mut String<A>, x: u64, row: u64) -> Result<(), AllocError>
    ensures { OnOk result (string_bytes out.new ≡ string_bytes out.old ++ Svg.caption_head x row) }
{
    let y = y_of(row);
    write!(
        out,
        "<text style='font-style:italic;fill:#850' x='{x}' y='{y}' dy='4'>"
    )
}

/// Tells a text, and for each character that has a meaning in SVG its entity.
fn tell_escaped<A: Allocator + Copy>(out: &mut String<A>, text: &str) -> Result<(), AllocError>
    ensures { OnOk result (string_bytes out.new ≡ string_bytes out.old ++ Svg.escaped text.now) }
{
    let mut rest = text.chars();
    'chars: while let Some(c) = rest.next() {
        tell_char(out, c)?;
    }
    Ok(())
}

fn tell_char<A: Allocator + Copy>(out: &mut String<A>, c: char) -> Result<(), AllocError>
    ensures { OnOk result (string_bytes out.new ≡ string_bytes out.old ++ Svg.escape c) }
{
    match c {
        '&' => out.push_str("&amp;"),
        '<' => out.push_str("&lt;"),
        '>' => out.push_str("&gt;"),
        _ => out.push(c),
    }
}

/// The room that the captions take, right of everything else.
pub(crate) fn room_for(captions: &[Caption<'_>]) -> u128
    ensures room { result ≡ Svg.room_for (besides_of captions.now) }
    ensures below { result < 2 ^ 68 }
{
    if captions.is_empty() {
        return 0;
    }
    16 + 8 * longest(captions) as u128
}

/// How many bytes the longest of these texts has.
fn longest(captions: &[Caption<'_>]) -> u64
    ensures { result ≡ Svg.longest 0 (besides_of captions.now) }
{
    let mut most = 0;
    'captions: for caption in captions.iter() {
        most = greater(most, caption.text.len() as u64);
    }
    most
}

fn greater(a: u64, b: u64) -> u64
    ensures { result ≡ Svg.greater a b }
{
    if a < b {
        return b;
    }
    a
}
