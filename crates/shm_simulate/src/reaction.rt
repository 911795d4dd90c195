//! What matters of an answer.
ghost use Rattle.std.specs.Prelude.{◌≡◌};
ghost use Rattle.shm_simulate.specs.Reactions as said;

use shm_model::Answer;

/// What matters of an answer.
#[derive(Clone, Copy, Debug, PartialEq, Eq)]
pub(crate) enum Reaction {
    /// The byte that was loaded.
    Byte(u8),
    Stored,
    /// The access had no right, and its site asked for the page.
    Fault,
    /// The access had no right, and its site had asked for the page before.
    Waiting,
    /// A site took the envelope, or dropped it.
    Received,
    Other,
}

/// What matters of this answer.
pub(crate) fn reaction_of(answer: &Answer) -> Reaction
    ensures { result ≡ said.reaction_of answer.now }
{
    match answer {
        Answer::Byte(byte) => Reaction::Byte(*byte),
        Answer::Stored => Reaction::Stored,
        Answer::Fault => Reaction::Fault,
        Answer::Waiting => Reaction::Waiting,
        Answer::Took | Answer::Dropped => Reaction::Received,
        _ => Reaction::Other,
    }
}
