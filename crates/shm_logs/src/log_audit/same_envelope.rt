//! Compares two envelopes.
ghost use Rattle.std.specs.Prelude.{◌≡◌};
ghost use Rattle.std.specs.Bool.{Decides};
ghost use Rattle.shm_parts.specs.Message.{entry_note_of, envelope_of, message_of, note_of};

use shm_parts::{EntryNote, Envelope, Message, Note};
use std::alloc::Allocator;

pub(crate) fn same_envelope<A: Allocator + Copy>(a: &Envelope<A>, b: &Envelope<A>) -> bool
    ensures { Decides result (envelope_of a.now ≡ envelope_of b.now) }
{
    a.from == b.from && a.to == b.to && same_message(&a.message, &b.message)
}

fn same_message<A: Allocator + Copy>(a: &Message<A>, b: &Message<A>) -> bool
    ensures { Decides result (message_of a.now ≡ message_of b.now) }
{
    match (a, b) {
        (Message::Of { page, note }, Message::Of { page: p, note: n }) => {
            page == p && same_note(note, n)
        }
        (Message::Call { number, op }, Message::Call { number: n, op: o }) => {
            number == n && op == o
        }
        (
            Message::Reply { number, reply },
            Message::Reply {
                number: n,
                reply: r,
            },
        ) => number == n && reply == r,
        (Message::Purge { id }, Message::Purge { id: i }) => id == i,
        (Message::Purged { id }, Message::Purged { id: i }) => id == i,
        _ => false,
    }
}

fn same_note<A: Allocator + Copy>(a: &Note<A>, b: &Note<A>) -> bool
    ensures { Decides result (note_of a.now ≡ note_of b.now) }
{
    match (a, b) {
        (Note::ToBook(told), Note::ToBook(t)) => told == t,
        (Note::ToEntry(told), Note::ToEntry(t)) => same_entry_note(told, t),
        _ => false,
    }
}

fn same_entry_note<A: Allocator + Copy>(a: &EntryNote<A>, b: &EntryNote<A>) -> bool
    ensures { Decides result (entry_note_of a.now ≡ entry_note_of b.now) }
{
    match (a, b) {
        (EntryNote::Clear(number), EntryNote::Clear(n)) => number == n,
        (
            EntryNote::Hand { number, kind, to },
            EntryNote::Hand {
                number: n,
                kind: k,
                to: t,
            },
        ) => number == n && kind == k && to == t,
        (EntryNote::Read(grant), EntryNote::Read(g)) => {
            grant.number() == g.number() && grant.bytes() == g.bytes()
        }
        (EntryNote::Write(grant), EntryNote::Write(g)) => {
            grant.number() == g.number() && grant.bytes() == g.bytes()
        }
        _ => false,
    }
}
