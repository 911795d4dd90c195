//! How a line is spelled: the one spelling that is read back as it.
use crate::display_first_line::First;
use crate::display_segment_calls::BehindRequest;
use crate::script_line::Line;
use shm_model::Event;
use std::fmt;

impl fmt::Display for Line {
    ghost use Rattle.std.specs.Prelude.{Some};
    ghost use Rattle.shm_lines.specs.Spelling as spelled;

    ghost output = { λ line. Some (spelled.spelling line) };

    /// The line as a script has it, without a line feed.
    fn fmt<W: fmt::Write>(&self, f: &mut fmt::Formatter<W>) -> fmt::Result {
        match self {
            Line::Sites(opening) => {
                let first = First(*opening);
                write!(f, "{first}")
            }
            Line::Event(event) => {
                let event = Happening(*event);
                write!(f, "{event}")
            }
            Line::Show(page) => {
                let seg = page.seg.0;
                let index = page.index;
                write!(f, "show {seg} {index}")
            }
            Line::Back(count) => write!(f, "back {count}"),
        }
    }
}

/// An event, as its line spells it.
#[derive(Clone, Copy)]
struct Happening(Event);

impl fmt::Display for Happening {
    ghost use Rattle.std.specs.Prelude.{Some};
    ghost use Rattle.std.specs.List.{join_with_byte};
    ghost use Rattle.shm_lines.specs.Spelling as spelled;

    ghost output = { λ event. Some (join_with_byte 32 (spelled.event_words event.0)) };

    #[tactic(auto, using(crate::proofs::CallTexts::before_request))]
    fn fmt<W: fmt::Write>(&self, f: &mut fmt::Formatter<W>) -> fmt::Result {
        match self.0 {
            Event::Load { site, at, offset } => {
                let site = site.0;
                write!(f, "load {site} {at} {offset}")
            }
            Event::Store {
                site,
                at,
                offset,
                byte,
            } => {
                let site = site.0;
                write!(f, "store {site} {at} {offset} {byte}")
            }
            Event::Begin { site, request } => {
                let site = site.0;
                let behind = BehindRequest(request);
                write!(f, "{} {site} {behind}", behind.verb())
            }
            Event::Tick { site } => {
                let site = site.0;
                write!(f, "tick {site}")
            }
            Event::Restart { site } => {
                let site = site.0;
                write!(f, "restart {site}")
            }
            Event::Deliver(number) => write!(f, "deliver {number}"),
            Event::Repeat(number) => write!(f, "repeat {number}"),
            Event::Lose(number) => write!(f, "lose {number}"),
        }
    }
}
