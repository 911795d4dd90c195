//! Arrows, and what is written at their heads.
ghost use Rattle.std.specs.Prelude.{◌≡◌, ◌++◌, OnOk, string_bytes};
ghost use Rattle.shm_draw.specs.Svg;

use crate::mark_kinds::{End, Way};
use crate::message_label::name_of;
use crate::svg_geometry::{reach_of, tip_of, x_of, y_of};
use shm_model::Answer;
use shm_place::SiteId;
use shm_text::AnswerText;
use std::alloc::{AllocError, Allocator};

/// Tells the arrow that ends in this row: a straight line, or to the same site a bow.
pub(crate) fn tell_path<A: Allocator + Copy>(
    out: &mut String<A>,
    way: &Way,
    end: End,
    row: u64,
) -> Result<(), AllocError>
    ensures { OnOk result (string_bytes out.new ≡ string_bytes out.old ++ Svg.path_text way.now end row) }
{
    let class = class_of(end);
    let x = x_of(way.from);
    let tip = tip_of(way.from, way.to, end);
    let start = y_of(way.origin);
    let y = y_of(row);
    if way.from == way.to {
        let bow = x as u128 + reach_of(way.origin, row);
        return write!(
            out,
            "<path class='{class}' d='M{x} {start}C{bow} {start} {bow} {y} {tip} {y}'/>\n"
        );
    }
    write!(out, "<path class='{class}' d='M{x} {start}L{tip} {y}'/>\n")
}

/// Writes the label at the arrow's head: its envelope, and the answer there.
pub(crate) fn tell_head_label<A: Allocator + Copy>(
    out: &mut String<A>,
    way: &Way,
    end: End,
    row: u64,
    answer: &Answer,
) -> Result<(), AllocError>
    ensures { OnOk result (string_bytes out.new ≡ string_bytes out.old ++ Svg.head_label way.now end row answer.now) }
{
    tell_label(out, way, end, row)?;
    tell_aside(out, way, end, row)?;
    tell_told(out, answer)?;
    out.push_str("</text>\n")
}

/// Tells the envelope's number and what its message is called, beside the head, where the line doesn't come from.
fn tell_label<A: Allocator + Copy>(
    out: &mut String<A>,
    way: &Way,
    end: End,
    row: u64,
) -> Result<(), AllocError>
    ensures { OnOk result (string_bytes out.new ≡ string_bytes out.old ++ Svg.label_text way.now end row) }
{
    let tip = tip_of(way.from, way.to, end);
    let y = y_of(row);
    let side = side_of(way.from, way.to);
    let number = way.number;
    let word = name_of(way.word);
    let ended = end_text(end);
    write!(
        out,
        "<text class='m' x='{tip}' y='{y}' dy='4' {side}>m{number} {word}{ended}"
    )
}

/// Where the label stands left of the lifeline, the answer stands right of it.
fn tell_aside<A: Allocator + Copy>(
    out: &mut String<A>,
    way: &Way,
    end: End,
    row: u64,
) -> Result<(), AllocError>
    ensures { OnOk result (string_bytes out.new ≡ string_bytes out.old ++ Svg.aside_text way.now end row) }
{
    if way.from.0 < way.to.0 {
        return Ok(());
    }
    let x = tip_of(way.from, way.to, end) as u128 + gap_of(way, row);
    let y = y_of(row);
    write!(out, "</text><text class='t' x='{x}' y='{y}' dy='4'>")
}

/// How far right of the lifeline that is: beyond a bow.
fn gap_of(way: &Way, row: u64) -> u128
    ensures { result ≡ Svg.gap_of way.now row }
{
    if way.from == way.to {
        return reach_of(way.origin, row);
    }
    24
}

/// Tells what was answered, unless it was only taken.
pub(crate) fn tell_told<A: Allocator + Copy>(
    out: &mut String<A>,
    answer: &Answer,
) -> Result<(), AllocError>
    ensures { OnOk result (string_bytes out.new ≡ string_bytes out.old ++ Svg.told_text answer.now) }
{
    if is_took(answer) {
        return Ok(());
    }
    let answer = AnswerText(*answer);
    write!(out, " {answer}")
}

fn is_took(answer: &Answer) -> bool
    ensures { result ≡ Svg.is_took answer.now }
{
    match answer {
        Answer::Took => true,
        _ => false,
    }
}

fn class_of(end: End) -> &'static str
    ensures { result.now ≡ Svg.class_text end }
{
    match end {
        End::HandedOver => "over",
        End::Repeated => "again",
        End::Lost => "lost",
        End::OnItsWay => "fly",
    }
}

fn end_text(end: End) -> &'static str
    ensures { result.now ≡ Svg.end_text end }
{
    match end {
        End::HandedOver => "",
        End::Repeated => " again",
        End::Lost => " lost",
        End::OnItsWay => "",
    }
}

fn side_of(from: SiteId, to: SiteId) -> &'static str
    ensures { result.now ≡ Svg.side_text from to }
{
    if from.0 < to.0 {
        return "dx='12'";
    }
    "dx='-12' text-anchor='end'"
}
