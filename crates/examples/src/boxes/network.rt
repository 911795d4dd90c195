use anyhow::Result;
use shm_parts::{BookNote, EntryNote, Message, Note};
use shm_sites::{Envelope, Stamp};
use std::alloc::Global;
use std::collections::VecDeque;

/// A queue of envelopes, each with the stamp of where it was sent. Of the pages the first is lost, and the second is repeated.
#[derive(Drop)]
pub struct Network {
    on_the_way: VecDeque<(Envelope, Stamp)>,
    pages: u32,
}

impl Network {
    /// Nothing is on its way.
    pub fn new(alloc: Global) -> Network {
        Network {
            on_the_way: VecDeque::new(alloc),
            pages: 0,
        }
    }

    /// Takes an envelope, and answers how often it will arrive.
    pub fn post(&mut self, envelope: &Envelope, source: Stamp) -> Result<u32> {
        let is_page = kind_of(envelope) == "Page";
        self.pages = self.pages.saturating_add(u32::from(is_page));
        let copies = match self.pages {
            1 if is_page => 0,
            2 if is_page => 2,
            _ => 1,
        };
        for _ in 0..copies {
            self.on_the_way.push_back((envelope.copy()?, source))?;
        }
        Ok(copies)
    }

    /// The oldest of what is on its way.
    pub fn next(&mut self) -> Option<(Envelope, Stamp)> {
        self.on_the_way.pop_front()
    }
}

/// The name of an envelope's message.
pub fn kind_of(envelope: &Envelope) -> &'static str {
    let Message::Of { note, .. } = &envelope.message else {
        return "another message";
    };
    match note {
        Note::ToBook(BookNote::Ask { .. }) => "Ask",
        Note::ToBook(BookNote::Confirm(_)) => "Confirm",
        Note::ToEntry(EntryNote::Hand { .. }) => "Hand",
        Note::ToEntry(EntryNote::Read(_) | EntryNote::Write(_)) => "Page",
        Note::ToBook(BookNote::Cleared(_)) | Note::ToEntry(EntryNote::Clear(_)) => {
            "another message"
        }
    }
}
