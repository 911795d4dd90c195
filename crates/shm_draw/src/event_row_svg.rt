//! The row of an event.
ghost use Rattle.std.specs.Prelude.{◌≡◌, ◌++◌, OnOk, string_bytes};
ghost use Rattle.shm_draw.specs.Svg;

use crate::arrow_svg::{tell_head_label, tell_path, tell_told};
use crate::mark_kinds::{Mark, Symbol};
use crate::svg_geometry::{x_of, y_of};
use shm_lines::Line;
use shm_model::{Answer, Event};
use shm_place::{PageId, SiteId};
use std::alloc::{AllocError, Allocator};

/// Tells the event's line in the script of what stands, whose first line is the opening, and the event as a script spells it.
pub(crate) fn tell_line<A: Allocator + Copy>(
    out: &mut String<A>,
    number: u64,
    event: Event,
    mark: &Mark,
) -> Result<(), AllocError>
    ensures { OnOk result (string_bytes out.new ≡ string_bytes out.old ++ Svg.line_text number event mark.now) }
{
    let class = line_class(mark);
    let y = y_of(number);
    let place = number as u128 + 1;
    let line = Line::Event(event);
    write!(
        out,
        "<text class='{class}' x='8' y='{y}' dy='4'>{place} {line}</text>\n"
    )
}

/// The line of an event of another page is grey.
fn line_class(mark: &Mark) -> &'static str
    ensures { result.now ≡ Svg.line_class mark.now }
{
    match mark {
        Mark::Elsewhere(_) => "e",
        _ => "l",
    }
}

/// Tells what the event draws below all texts.
pub(crate) fn tell_shape<A: Allocator + Copy>(
    out: &mut String<A>,
    number: u64,
    mark: &Mark,
) -> Result<(), AllocError>
    ensures { OnOk result (string_bytes out.new ≡ string_bytes out.old ++ Svg.mark_shape number mark.now) }
{
    match mark {
        Mark::At(site, symbol) => tell_symbol(out, number, *site, *symbol),
        Mark::Arrow(way, end) => tell_path(out, way, *end, number),
        Mark::Elsewhere(_) | Mark::Nowhere => Ok(()),
    }
}

/// Tells what the event draws in words, and what was answered.
pub(crate) fn tell_mark<A: Allocator + Copy>(
    out: &mut String<A>,
    number: u64,
    mark: &Mark,
    answer: &Answer,
) -> Result<(), AllocError>
    ensures { OnOk result (string_bytes out.new ≡ string_bytes out.old ++ Svg.mark_label number mark.now answer.now) }
{
    match mark {
        Mark::At(site, _) => tell_at(out, number, *site, answer),
        Mark::Arrow(way, end) => tell_head_label(out, way, *end, number, answer),
        Mark::Elsewhere(page) => tell_elsewhere(out, number, *page),
        Mark::Nowhere => tell_nowhere(out, number, answer),
    }
}

/// Tells a symbol at a site.
fn tell_symbol<A: Allocator + Copy>(
    out: &mut String<A>,
    number: u64,
    site: SiteId,
    symbol: Symbol,
) -> Result<(), AllocError>
    ensures { OnOk result (string_bytes out.new ≡ string_bytes out.old ++ Svg.symbol_text number site symbol) }
{
    let name = name_of(symbol);
    let x = x_of(site);
    let y = y_of(number);
    write!(out, "<use href='#{name}' x='{x}' y='{y}'/>\n")
}

/// Tells what was answered at a site.
fn tell_at<A: Allocator + Copy>(
    out: &mut String<A>,
    number: u64,
    site: SiteId,
    answer: &Answer,
) -> Result<(), AllocError>
    ensures { OnOk result (string_bytes out.new ≡ string_bytes out.old ++ Svg.at_label number site answer.now) }
{
    tell_at_head(out, number, site)?;
    tell_told(out, answer)?;
    out.push_str("</text>\n")
}

fn tell_at_head<A: Allocator + Copy>(
    out: &mut String<A>,
    number: u64,
    site: SiteId,
) -> Result<(), AllocError>
    ensures { OnOk result (string_bytes out.new ≡ string_bytes out.old ++ Svg.at_head number site) }
{
    let x = x_of(site);
    let y = y_of(number);
    write!(out, "<text class='t' x='{x}' y='{y}' dy='4' dx='10'>")
}

/// Tells what was answered to an event for which there is no envelope, or no site, left of the lifelines.
fn tell_nowhere<A: Allocator + Copy>(
    out: &mut String<A>,
    number: u64,
    answer: &Answer,
) -> Result<(), AllocError>
    ensures { OnOk result (string_bytes out.new ≡ string_bytes out.old ++ Svg.nowhere_label number answer.now) }
{
    tell_nowhere_head(out, number)?;
    tell_told(out, answer)?;
    out.push_str("</text>\n")
}

fn tell_nowhere_head<A: Allocator + Copy>(
    out: &mut String<A>,
    number: u64,
) -> Result<(), AllocError>
    ensures { OnOk result (string_bytes out.new ≡ string_bytes out.old ++ Svg.nowhere_head number) }
{
    let y = y_of(number);
    write!(
        out,
        "<text class='t' x='258' y='{y}' dy='4' text-anchor='end'>"
    )
}

/// Tells which other page the event is about, left of the lifelines.
fn tell_elsewhere<A: Allocator + Copy>(
    out: &mut String<A>,
    number: u64,
    page: PageId,
) -> Result<(), AllocError>
    ensures { OnOk result (string_bytes out.new ≡ string_bytes out.old ++ Svg.elsewhere_label number page) }
{
    let y = y_of(number);
    let segment = page.seg.0;
    let index = page.index;
    write!(
        out,
        "<text class='e' x='258' y='{y}' dy='4' text-anchor='end'>page {segment} {index}</text>\n"
    )
}

fn name_of(symbol: Symbol) -> &'static str
    ensures { result.now ≡ Svg.symbol_name symbol }
{
    match symbol {
        Symbol::Request => "Request",
        Symbol::Tick => "Tick",
        Symbol::Restart => "Restart",
    }
}
