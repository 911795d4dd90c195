//! The envelopes that are on their way.
ghost use Rattle.std.specs.Prelude.{◌≡◌, ◌++◌, Some, OnOk, string_bytes};
ghost use Rattle.shm_model.specs.World as model;
ghost use Rattle.shm_parts.specs.Message.{book_note_of, entry_note_of, envelope_of, message_of, note_of};
ghost use Rattle.shm_world.specs.World.{StandsFor};
ghost use Rattle.shm_steps.specs.Section;

use crate::manager_book_html::kind_name;
use shm_parts::{BookNote, EntryNote, Envelope, Message, Note};
use shm_place::PageId;
use shm_text::message_name;
use shm_world::World;
use std::alloc::{AllocError, Allocator};

/// Tells each envelope that is on its way, the oldest first.
pub(crate) fn tell_flights<A: Allocator + Copy>(
    out: &mut String<A>,
    world: &World<A>,
) -> Result<(), AllocError>
    ensures { (w : model.World) → StandsFor world.now w → OnOk result (string_bytes out.new ≡ string_bytes out.old ++ Section.flights_text w) }
{
    'numbers: for number in 0..world.sent() {
        tell_live(out, world, number)?;
    }
    Ok(())
}

/// Tells the envelope of this number, if it is on its way.
fn tell_live<A: Allocator + Copy>(
    out: &mut String<A>,
    world: &World<A>,
    number: u64,
) -> Result<(), AllocError>
    ensures { (w : model.World) → StandsFor world.now w → OnOk result (string_bytes out.new ≡ string_bytes out.old ++ Section.flight_text number (model.live w number)) }
{
    match world.envelope(number) {
        Some(envelope) => tell_envelope(out, number, envelope),
        None => Ok(()),
    }
}

fn tell_envelope<A: Allocator + Copy>(
    out: &mut String<A>,
    number: u64,
    envelope: &Envelope<A>,
) -> Result<(), AllocError>
    ensures { OnOk result (string_bytes out.new ≡ string_bytes out.old ++ Section.flight_text number (Some (envelope_of envelope.now))) }
{
    tell_way(out, number, envelope)?;
    tell_message(out, &envelope.message)?;
    out.push_str("</li>\n")
}

/// Tells the envelope's number, where it comes from and goes to, and its message's name.
fn tell_way<A: Allocator + Copy>(
    out: &mut String<A>,
    number: u64,
    envelope: &Envelope<A>,
) -> Result<(), AllocError>
    ensures { OnOk result (string_bytes out.new ≡ string_bytes out.old ++ Section.way_text number (envelope_of envelope.now)) }
{
    let from = envelope.from.0;
    let to = envelope.to.0;
    let name = message_name(&envelope.message);
    write!(out, "<li>m{number} from {from} to {to}: {name}")
}

/// Tells what the message says behind its name.
fn tell_message<A: Allocator + Copy>(
    out: &mut String<A>,
    message: &Message<A>,
) -> Result<(), AllocError>
    ensures { OnOk result (string_bytes out.new ≡ string_bytes out.old ++ Section.message_text (message_of message.now)) }
{
    match message {
        Message::Of { page, note } => {
            tell_page(out, *page)?;
            tell_note(out, note)
        }
        Message::Call { number, .. } => write!(out, " number {number}"),
        Message::Reply { number, .. } => write!(out, " number {number}"),
        Message::Purge { id } => {
            let segment = id.0;
            write!(out, " segment {segment}")
        }
        Message::Purged { id } => {
            let segment = id.0;
            write!(out, " segment {segment}")
        }
    }
}

fn tell_page<A: Allocator + Copy>(out: &mut String<A>, page: PageId) -> Result<(), AllocError>
    ensures { OnOk result (string_bytes out.new ≡ string_bytes out.old ++ Section.page_behind page) }
{
    let seg = page.seg.0;
    let index = page.index;
    write!(out, " page {seg} {index}")
}

fn tell_note<A: Allocator + Copy>(out: &mut String<A>, note: &Note<A>) -> Result<(), AllocError>
    ensures { OnOk result (string_bytes out.new ≡ string_bytes out.old ++ Section.note_text (note_of note.now)) }
{
    match note {
        Note::ToBook(told) => tell_book_note(out, told),
        Note::ToEntry(told) => tell_entry_note(out, told),
    }
}

fn tell_book_note<A: Allocator + Copy>(
    out: &mut String<A>,
    note: &BookNote,
) -> Result<(), AllocError>
    ensures { OnOk result (string_bytes out.new ≡ string_bytes out.old ++ Section.note_text (book_note_of note.now)) }
{
    match note {
        BookNote::Ask { request, kind } => {
            let wants = kind_name(*kind);
            write!(out, " request {request}{wants}")
        }
        BookNote::Cleared(number) => write!(out, " t {number}"),
        BookNote::Confirm(number) => write!(out, " t {number}"),
    }
}

fn tell_entry_note<A: Allocator + Copy>(
    out: &mut String<A>,
    note: &EntryNote<A>,
) -> Result<(), AllocError>
    ensures { OnOk result (string_bytes out.new ≡ string_bytes out.old ++ Section.note_text (entry_note_of note.now)) }
{
    match note {
        EntryNote::Clear(number) => write!(out, " t {number}"),
        EntryNote::Hand { number, kind, to } => {
            let site = to.0;
            let wants = kind_name(*kind);
            write!(out, " t {number} to site {site}{wants}")
        }
        EntryNote::Read(copy) => {
            let number = copy.number();
            write!(out, " t {number} to read")
        }
        EntryNote::Write(whole) => {
            let number = whole.number();
            write!(out, " t {number} to write")
        }
    }
}
