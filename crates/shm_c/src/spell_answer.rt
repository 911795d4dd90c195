//! Answers and replies, as numbers.
ghost use Rattle.std.specs.Prelude.{◌≡◌};
ghost use Rattle.shm_c.specs.Numbers.{answer_numbers, answer_reply, kind_alone, outcome_numbers, outcome_reply, no_reply, reply_numbers, with_attachment};

use crate::numbers::{AnswerNumbers, Outcome, ReplyNumbers};
use shm_model::{Answer, Numbered, Reply};

/// An answer of which the kind says all.
pub(crate) fn kind_alone(kind: u32) -> AnswerNumbers
    ensures { result ≡ kind_alone kind }
{
    AnswerNumbers {
        kind,
        value: 0,
        number: 0,
    }
}

/// The answer as numbers.
pub(crate) fn answer_numbers(answer: Answer) -> AnswerNumbers
    ensures { result ≡ answer_numbers answer }
{
    match answer {
        Answer::Byte(byte) => AnswerNumbers {
            kind: 1,
            value: u32::from(byte),
            number: 0,
        },
        Answer::Stored => kind_alone(2),
        Answer::Fault => kind_alone(3),
        Answer::Waiting => kind_alone(4),
        Answer::Began(number) => AnswerNumbers {
            kind: 5,
            value: 0,
            number,
        },
        Answer::Replied {
            number,
            reply: _,
            attachment: _,
        } => AnswerNumbers {
            kind: 6,
            value: 0,
            number,
        },
        Answer::Took => kind_alone(7),
        Answer::Dropped => kind_alone(8),
        Answer::Refused(refusal) => AnswerNumbers {
            kind: 9,
            value: u32::from(refusal),
            number: 0,
        },
    }
}

/// What became of an event, as numbers.
pub(crate) fn outcome_numbers(outcome: &Outcome) -> AnswerNumbers
    ensures { result ≡ outcome_numbers outcome.now }
{
    match outcome {
        Outcome::Made(answer) => answer_numbers(*answer),
        Outcome::NoMemory => kind_alone(10),
        Outcome::NoWorld => kind_alone(11),
    }
}

/// No reply.
pub(crate) fn no_reply() -> ReplyNumbers
    ensures { result ≡ no_reply }
{
    ReplyNumbers {
        kind: 0,
        id: 0,
        size: 0,
        read_only: false,
        has_attachment: false,
        attachment: 0,
        errno: 0,
        key: 0,
        uid: 0,
        gid: 0,
        cuid: 0,
        cgid: 0,
        mode: 0,
        marked: false,
        attaches: 0,
    }
}

/// The reply as numbers.
fn reply_numbers(reply: Reply) -> ReplyNumbers
    ensures { result ≡ reply_numbers reply }
{
    let mut numbers = no_reply();
    match reply {
        Reply::Id(id) => {
            numbers.kind = 1;
            numbers.id = id.0;
        }
        Reply::Attached(attached) => {
            numbers.kind = 2;
            numbers.size = attached.size;
            numbers.read_only = attached.ro;
        }
        Reply::Ok => {
            numbers.kind = 3;
        }
        Reply::Stat(stat) => {
            numbers.kind = 4;
            numbers.size = stat.size;
            numbers.key = stat.key.0;
            numbers.uid = stat.uid;
            numbers.gid = stat.gid;
            numbers.cuid = stat.cuid;
            numbers.cgid = stat.cgid;
            numbers.mode = stat.mode.bits();
            numbers.marked = stat.marked;
            numbers.attaches = stat.nattch;
        }
        Reply::Refused(errno) => {
            numbers.kind = 5;
            numbers.errno = u32::from(errno.number());
        }
    }
    numbers
}

/// The same with the attachment that an attach made.
fn with_attachment(attachment: Option<u32>, numbers: ReplyNumbers) -> ReplyNumbers
    ensures { result ≡ with_attachment attachment numbers }
{
    let Some(attachment) = attachment else {
        return numbers;
    };
    let mut numbers = numbers;
    numbers.has_attachment = true;
    numbers.attachment = attachment;
    numbers
}

/// The reply in an answer.
pub(crate) fn answer_reply(answer: Answer) -> ReplyNumbers
    ensures { result ≡ answer_reply answer }
{
    match answer {
        Answer::Replied {
            number: _,
            reply,
            attachment,
        } => with_attachment(attachment, reply_numbers(reply)),
        _ => no_reply(),
    }
}

/// The reply in what became of an event.
pub(crate) fn outcome_reply(outcome: &Outcome) -> ReplyNumbers
    ensures { result ≡ outcome_reply outcome.now }
{
    match outcome {
        Outcome::Made(answer) => answer_reply(*answer),
        _ => no_reply(),
    }
}
