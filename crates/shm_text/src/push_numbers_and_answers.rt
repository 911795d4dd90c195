//! The parts of lines. Numbers, answers and the common replies are appended without a formatter, which takes longer. A reply to `stat`, and
//! a refused call, are appended by their `Display`.
ghost use Rattle.std.specs.Prelude.{◌≡◌, ◌++◌, OnOk, string_bytes};
ghost use Rattle.std.specs.Fmt.{decimal};
ghost use Rattle.shm_text.specs.Text.{answer_text, reply_text};

use crate::reply_text::ReplyText;
use itoa::Buffer;
use shm_model::{Answer, Reply};
use std::alloc::{AllocError, Allocator};

/// Appends a number in decimal digits.
pub fn push_number<A: Allocator + Copy>(out: &mut String<A>, number: u64) -> Result<(), AllocError>
    ensures { OnOk result (string_bytes out.new ≡ string_bytes out.old ++ decimal number) }
{
    let mut buffer = Buffer::new();
    out.push_str(buffer.format(number))
}

/// Appends a name, which ends with its blank, and a number behind it.
fn push_named<A: Allocator + Copy>(
    out: &mut String<A>,
    name: &str,
    number: u64,
) -> Result<(), AllocError>
    ensures { OnOk result (string_bytes out.new ≡ string_bytes out.old ++ (name.now ++ decimal number)) }
{
    out.push_str(name)?;
    push_number(out, number)
}

/// Appends an answer. Where memory is refused a part of it may stand.
pub fn push_answer<A: Allocator + Copy>(
    out: &mut String<A>,
    answer: &Answer,
) -> Result<(), AllocError>
    ensures { OnOk result (string_bytes out.new ≡ string_bytes out.old ++ answer_text answer.now) }
{
    match answer {
        Answer::Byte(byte) => push_named(out, "byte ", *byte as u64),
        Answer::Stored => out.push_str("stored"),
        Answer::Fault => out.push_str("fault"),
        Answer::Waiting => out.push_str("waiting"),
        Answer::Began(number) => push_named(out, "began ", *number),
        Answer::Took => out.push_str("took"),
        Answer::Dropped => out.push_str("dropped"),
        Answer::Replied {
            number,
            reply,
            attachment,
        } => {
            push_named(out, "replied ", *number)?;
            out.push_str(" ")?;
            push_reply(out, *reply, *attachment)
        }
        Answer::Refused(number) => push_named(out, "refused ", *number as u64),
    }
}

/// Appends a reply to a segment call, and the number of the attachment that it made.
fn push_reply<A: Allocator + Copy>(
    out: &mut String<A>,
    reply: Reply,
    attachment: Option<u32>,
) -> Result<(), AllocError>
    ensures { OnOk result (string_bytes out.new ≡ string_bytes out.old ++ reply_text reply attachment) }
{
    match (reply, attachment) {
        (Reply::Id(id), _) => push_named(out, "id ", id.0 as u64),
        (Reply::Attached(_), Some(number)) => push_named(out, "attached ", number as u64),
        (Reply::Ok, _) => out.push_str("ok"),
        (reply, attachment) => {
            let text = ReplyText { reply, attachment };
            write!(out, "{text}")
        }
    }
}
