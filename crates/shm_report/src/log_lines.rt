//! A site's log as text: a line for each step.
ghost use Rattle.std.specs.Prelude.{◌≡◌, ◌++◌, Some, map, IfErr, IfOk, OnOk, string_bytes};
ghost use Rattle.shm_logs.specs.Boxes.Logged.{logged_of, stamp_of};
ghost use Rattle.shm_logs.specs.Boxes.SiteLog.{steps_of};
ghost use Rattle.shm_lines.specs.Spelling.{spelling};
ghost use Rattle.shm_lines.specs.declared.script_line.Line.TheVariants as line;
ghost use Rattle.shm_model.specs.Log.{Stamp as Source};
ghost use Rattle.shm_model.specs.Message.{Deliver};
ghost use Rattle.shm_parts.specs.Message.{envelope_of};
ghost use Rattle.shm_report.specs.LogText as spec;
ghost use Rattle.shm_site.specs.Step.{input_of};

use shm_lines::Line;
use shm_model::Event;
use shm_place::SiteId;
use shm_sites::{Envelope, Input, SiteLog, Stamp, Step};
use shm_text::AnswerText;
use shm_wire::SentLine;
use std::alloc::{AllocError, Global};
use std::fmt;

/// A line for each step of the log: its stamp, its input, its answer, and the envelopes that it sent. An envelope is spelled as on a
/// stream, with the clock, the index and the place at which it was sent; any other input as a script's line.
pub fn log_text(alloc: Global, log: &SiteLog) -> Result<String, AllocError>
    ensures { IfOk result (λ text. string_bytes text ≡ spec.log_text log.now.me 0 (steps_of log.now)) }
{
    let mut text = String::new(alloc);
    let me = log.site();
    let all = log.steps();
    'steps: for (index, step) in all.iter().enumerate() {
        push_step(&mut text, me, index, step)?;
    }
    Ok(text)
}

fn push_step(text: &mut String, site: SiteId, index: usize, step: &Step) -> Result<(), AllocError>
    ensures { OnOk result (string_bytes text.new ≡ string_bytes text.old ++ spec.step_text site index (logged_of step.now)) }
{
    let stamp = step.stamp;
    let handed = Handed {
        site,
        source: step.source,
        input: &step.input,
    };
    let answer = AnswerText(step.answer);
    write!(text, "{stamp} {handed} > {answer}")?;
    push_sent(text, stamp, index, step.sent.as_slice())?;
    text.push_str("\n")
}

/// Appends the envelopes that the step of this stamp and index sent.
fn push_sent(
    text: &mut String,
    clock: u64,
    index: usize,
    sent: &[Envelope],
) -> Result<(), AllocError>
    ensures { OnOk result (string_bytes text.new ≡ string_bytes text.old ++ spec.sent_text clock index 0 (map envelope_of sent.now)) }
{
    'sent: for (place, envelope) in sent.iter().enumerate() {
        let source = shm_wire::Source {
            clock,
            index: index as u64,
            place: place as u64,
        };
        let line = SentLine { source, envelope };
        write!(text, " | {line}")?;
    }
    Ok(())
}

/// The input of a step, at its site.
#[derive(Clone, Copy)]
struct Handed<'a> {
    site: SiteId,
    source: Stamp,
    input: &'a Input,
}

impl fmt::Display for Handed<'_> {
    ghost output = { λ handed. Some (spec.handed_text handed.site (stamp_of handed.source) (input_of handed.input.now)) };

    fn fmt<W: fmt::Write>(&self, f: &mut fmt::Formatter<W>) -> fmt::Result {
        match own_event(self.site, self.input) {
            Ok(event) => write!(f, "{}", Line::Event(event)),
            Err(envelope) => {
                let source = shm_wire::Source {
                    clock: self.source.at,
                    index: self.source.index as u64,
                    place: self.source.place as u64,
                };
                write!(f, "{}", SentLine { source, envelope })
            }
        }
    }
}

/// The event of an input of the site's own; else the envelope that brought it.
fn own_event(site: SiteId, input: &Input) -> Result<Event, &Envelope>
    ensures own { IfOk result (λ event. (source : Source) → spec.handed_text site source (input_of input.now) ≡ spelling (line.Event event)) }
    ensures brought { IfErr result (λ envelope. input_of input.now ≡ Deliver (envelope_of envelope.now)) }
{
    match input {
        Input::Load { at, offset } => Ok(Event::Load {
            site,
            at: *at,
            offset: *offset,
        }),
        Input::Store { at, offset, byte } => Ok(Event::Store {
            site,
            at: *at,
            offset: *offset,
            byte: *byte,
        }),
        Input::Begin(request) => Ok(Event::Begin {
            site,
            request: *request,
        }),
        Input::Deliver(envelope) => Err(envelope),
        Input::Tick => Ok(Event::Tick { site }),
        Input::Restart => Ok(Event::Restart { site }),
    }
}
