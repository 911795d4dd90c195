ghost use Rattle.std.specs.Prelude.{Some};
ghost use Rattle.shm_text.specs.Text.{answer_text};

use crate::reply_text::ReplyText;
use shm_model::Answer;
use std::fmt;

/// An answer as it is printed: one word, and what it holds behind it.
#[derive(Clone, Copy)]
pub struct AnswerText(pub Answer);

impl fmt::Display for AnswerText {
    ghost output = { λ text. Some (answer_text text.0) };

    fn fmt<W: fmt::Write>(&self, f: &mut fmt::Formatter<W>) -> fmt::Result {
        match self.0 {
            Answer::Byte(byte) => write!(f, "byte {byte}"),
            Answer::Stored => write!(f, "stored"),
            Answer::Fault => write!(f, "fault"),
            Answer::Waiting => write!(f, "waiting"),
            Answer::Began(number) => write!(f, "began {number}"),
            Answer::Replied {
                number,
                reply,
                attachment,
            } => {
                let reply = ReplyText { reply, attachment };
                write!(f, "replied {number} {reply}")
            }
            Answer::Took => write!(f, "took"),
            Answer::Dropped => write!(f, "dropped"),
            Answer::Refused(number) => write!(f, "refused {number}"),
        }
    }
}
