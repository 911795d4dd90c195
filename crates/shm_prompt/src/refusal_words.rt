//! The words of a refusal, which stand behind its number.
ghost use Rattle.std.specs.Prelude.{◌≡◌, Some};
ghost use Rattle.shm_prompt.specs.Refusals as told;

use shm_model::{Answer, Event, refusal};
use std::fmt;

/// A refusal of an event, by its number and the number of the site or the envelope that the event names.
#[derive(Clone, Copy)]
pub(crate) struct RefusalText {
    pub(crate) number: u8,
    pub(crate) about: u64,
}

impl fmt::Display for RefusalText {
    ghost output = { λ text. Some (told.refused_text text.number text.about) };

    fn fmt<W: fmt::Write>(&self, f: &mut fmt::Formatter<W>) -> fmt::Result {
        let number = self.number;
        let about = self.about;
        let before = words_before(number);
        let behind = words_behind(number);
        write!(f, "refused {number}: {before}{about}{behind}")
    }
}

fn words_before(number: u8) -> &'static str
    ensures { result.now ≡ told.words_before number }
{
    if number == refusal::NO_SUCH_SITE {
        return "there is no site ";
    }
    if number == refusal::NO_SUCH_MESSAGE {
        return "no message is on its way under number ";
    }
    if number == refusal::FOREIGN {
        return "its site can't have message ";
    }
    if number == refusal::NUMBERS_USED_UP {
        return "the numbers are used up for ";
    }
    "site "
}

fn words_behind(number: u8) -> &'static str
    ensures { result.now ≡ told.words_behind number }
{
    if number == refusal::BUSY {
        return " waits for the reply to a segment call";
    }
    if number == refusal::NO_ATTACHMENT {
        return " has no such attachment";
    }
    if number == refusal::READ_ONLY {
        return " may only read through this attachment";
    }
    if number == refusal::OUT_OF_SEGMENT {
        return " has no such offset at this attachment";
    }
    if number == refusal::TOO_MANY_ATTACHMENTS {
        return " has 64 attachments, which is the most";
    }
    ""
}

/// The refusal's number, if the answer is one.
pub(crate) fn refusal_of(answer: &Answer) -> Option<u8>
    ensures { result ≡ told.refusal_of answer.now }
{
    match *answer {
        Answer::Refused(number) => Some(number),
        _ => None,
    }
}

/// The number of the site or the envelope that the event names.
pub(crate) fn named_by(event: &Event) -> u64
    ensures { result ≡ told.named_by event.now }
{
    match *event {
        Event::Load { site, .. } => site.0 as u64,
        Event::Store { site, .. } => site.0 as u64,
        Event::Begin { site, .. } => site.0 as u64,
        Event::Tick { site } => site.0 as u64,
        Event::Restart { site } => site.0 as u64,
        Event::Deliver(number) => number,
        Event::Repeat(number) => number,
        Event::Lose(number) => number,
    }
}
