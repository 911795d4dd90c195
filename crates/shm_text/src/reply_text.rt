ghost use Rattle.std.specs.Prelude.{Some};
ghost use Rattle.shm_text.specs.Text.{attachment_text, reply_text};

use crate::stat_text::StatText;
use shm_model::{Numbered, Reply};
use std::fmt;

/// A reply to a segment call, and the number of the attachment that it made.
#[derive(Clone, Copy)]
pub(crate) struct ReplyText {
    pub(crate) reply: Reply,
    pub(crate) attachment: Option<u32>,
}

impl fmt::Display for ReplyText {
    ghost output = { λ text. Some (reply_text text.reply text.attachment) };

    fn fmt<W: fmt::Write>(&self, f: &mut fmt::Formatter<W>) -> fmt::Result {
        match self.reply {
            Reply::Id(id) => {
                let id = id.0;
                write!(f, "id {id}")
            }
            Reply::Attached(_) => {
                let attachment = AttachmentText(self.attachment);
                write!(f, "attached {attachment}")
            }
            Reply::Ok => write!(f, "ok"),
            Reply::Stat(stat) => {
                let stat = StatText(stat);
                write!(f, "{stat}")
            }
            Reply::Refused(error) => {
                let number = error.number();
                write!(f, "error {number}")
            }
        }
    }
}

/// An attachment's number. No site gives an attach's reply without one.
#[derive(Clone, Copy)]
struct AttachmentText(Option<u32>);

impl fmt::Display for AttachmentText {
    ghost output = { λ text. Some (attachment_text text.0) };

    fn fmt<W: fmt::Write>(&self, f: &mut fmt::Formatter<W>) -> fmt::Result {
        match self.0 {
            Some(number) => write!(f, "{number}"),
            None => write!(f, "-"),
        }
    }
}
