//! What is measured of a run.
ghost use Rattle.std.specs.Prelude.{◌≡◌, count_by, length};
ghost use Rattle.shm_simulate.specs.Measures as said;
ghost use Rattle.shm_simulate.specs.declared.page_message.PageMessage.{PageMessage};

use crate::line_state::LineState;
use crate::page_message::{MessageKind, PageMessage};
use shm_model::{Asked, Event};
use shm_place::PAGE_BYTES;

/// What is measured of a run: a number for each run.
#[derive(Clone, Copy, Debug, PartialEq, Eq)]
pub enum Measure {
    /// How often the access of the line of this number asked for its page, since its site had no right to it. The first access is line 2.
    Faults(u32),
    /// How often the access of the line of this number was tried in vain.
    Rounds(u32),
    /// How many messages of this kind were handed over.
    Messages(MessageKind),
    /// How many messages about the page of this index were handed over.
    PageMessages(u32),
    /// How often the page of this index came to a site, to read or to write.
    Moves(u32),
    /// How often the page of this index was asked for.
    PageFaults(u32),
    /// How many ticks there were.
    Ticks,
}

/// The value of the measure in a run of these events, which left these lines, and in which these messages were handed over.
pub(crate) fn value(
    measure: Measure,
    lines: &[LineState],
    messages: &[PageMessage],
    events: &[Event],
) -> usize
    ensures { result ≡ said.value_in measure lines.now messages.now events.now }
{
    match measure {
        Measure::Faults(line) => faults_of(lines, line),
        Measure::Rounds(line) => rounds_of(lines, line),
        Measure::Messages(kind) => messages_of(messages, kind),
        Measure::PageMessages(page) => messages
            .iter()
            .filter(|message| message.page.index == page)
            .count(),
        Measure::Moves(page) => moves_of(messages, page),
        Measure::PageFaults(page) => page_faults_of(lines, page),
        Measure::Ticks => ticks_of(events),
    }
}

fn faults_of(lines: &[LineState], line: u32) -> usize
    ensures { result ≡ said.faults_of lines.now line }
{
    match lines.get((line as usize).saturating_sub(2)) {
        Some(line) => line.faults as usize,
        None => 0,
    }
}

fn rounds_of(lines: &[LineState], line: u32) -> usize
    ensures { result ≡ said.rounds_of lines.now line }
{
    match lines.get((line as usize).saturating_sub(2)) {
        Some(line) => line.rounds as usize,
        None => 0,
    }
}

fn messages_of(messages: &[PageMessage], kind: MessageKind) -> usize
    ensures { result ≡ count_by (λ (message : PageMessage). said.same_kind message.kind kind) messages.now }
{
    messages
        .iter()
        .filter(|message| same_kind(message.kind, kind))
        .count()
}

fn same_kind(one: MessageKind, other: MessageKind) -> bool
    ensures { result ≡ said.same_kind one other }
{
    kind_number(one) == kind_number(other)
}

fn kind_number(kind: MessageKind) -> u8
    ensures { result ≡ said.kind_number kind }
{
    match kind {
        MessageKind::Ask => 0,
        MessageKind::Clear => 1,
        MessageKind::Cleared => 2,
        MessageKind::Hand => 3,
        MessageKind::Page => 4,
        MessageKind::Confirm => 5,
    }
}

fn moves_of(messages: &[PageMessage], page: u32) -> usize
    ensures { result ≡ count_by (said.is_move_of page) messages.now }
{
    messages
        .iter()
        .filter(|message| same_kind(message.kind, MessageKind::Page) && message.page.index == page)
        .count()
}

fn page_faults_of(lines: &[LineState], page: u32) -> usize
    ensures { result ≡ said.page_faults_of lines.now page }
{
    lines
        .iter()
        .fold(0, |total, line| with_faults(total, *line, page))
}

/// The faults of the line are added where it is on the page of this index.
fn with_faults(total: usize, line: LineState, page: u32) -> usize
    ensures { result ≡ said.with_faults page total line }
{
    let faults = line.faults;
    if index_of(line) == page {
        return total.saturating_add(faults as usize);
    }
    total
}

/// The index of the page of a line's access.
pub(crate) fn index_of(line: LineState) -> u32
    ensures { result ≡ said.index_of line.access.asked }
{
    match line.access.asked {
        Asked::Load { offset, .. } => offset / PAGE_BYTES as u32,
        Asked::Store { offset, .. } => offset / PAGE_BYTES as u32,
    }
}

fn ticks_of(events: &[Event]) -> usize
    ensures { result ≡ count_by said.is_tick events.now }
{
    events.iter().filter(|event| is_tick(event)).count()
}

fn is_tick(event: &Event) -> bool
    ensures { result ≡ said.is_tick event.now }
{
    match event {
        Event::Tick { .. } => true,
        _ => false,
    }
}
