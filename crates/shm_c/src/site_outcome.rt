//! What becomes of a site's input, and its numbers.
ghost use Rattle.std.specs.Prelude.{◌≡◌};
ghost use Rattle.shm_c.specs.SiteNumbers.{site_outcome_numbers, site_outcome_reply};

use crate::numbers::{AnswerNumbers, ReplyNumbers};
use crate::spell_answer::{answer_numbers, answer_reply, kind_alone, no_reply};
use shm_model::Answer;
use shm_model::refusal::FOREIGN;

/// What became of an input.
#[derive(Clone, Copy)]
pub enum SiteOutcome {
    /// The step was made, and answered so.
    Made(Answer),
    /// The envelope can't be for this site.
    Foreign,
    /// Memory was refused.
    NoMemory,
    /// The handle is empty.
    NoSite,
    /// The line spells no envelope.
    NoLine,
}

/// What became of an input, as numbers.
pub(crate) fn site_outcome_numbers(outcome: &SiteOutcome) -> AnswerNumbers
    ensures { result ≡ site_outcome_numbers outcome.now }
{
    match outcome {
        SiteOutcome::Made(answer) => answer_numbers(*answer),
        SiteOutcome::Foreign => answer_numbers(Answer::Refused(FOREIGN)),
        SiteOutcome::NoMemory => kind_alone(10),
        SiteOutcome::NoSite => kind_alone(13),
        SiteOutcome::NoLine => kind_alone(14),
    }
}

/// The reply in what became of an input.
pub(crate) fn site_outcome_reply(outcome: &SiteOutcome) -> ReplyNumbers
    ensures { result ≡ site_outcome_reply outcome.now }
{
    match outcome {
        SiteOutcome::Made(answer) => answer_reply(*answer),
        _ => no_reply(),
    }
}
