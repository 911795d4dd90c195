//! A caller's receipt of a step. Only a box makes receipts, where it takes the step.
mod box_take;

use crate::site_boxes::logged_step::Step;
use shm_model::{Answer, Asked};
use shm_place::SiteId;
use std::alloc::Allocator;

/// A caller's record of a step that a box took.
#[derive(Clone, Copy, Debug, PartialEq, Eq)]
pub struct Receipt {
    site: SiteId,
    index: usize,
    asked: Option<Asked>,
    answer: Answer,
}

impl Receipt {
    ghost use Rattle.std.specs.Prelude.{◌≡◌};
    ghost use Rattle.shm_model.specs.Receipt.{access, asked_of};
    ghost use Rattle.shm_site.specs.Step.{input_of};
    ghost use Rattle.shm_logs.specs.Boxes.Receipt.{receipt_of};

    /// Of the step of this index in the site's log.
    fn of<A: Allocator + Copy>(site: SiteId, index: usize, step: &Step<A>) -> Receipt
        ensures { receipt_of result ≡ record { site = site; index = index; asked = access (input_of step.now.input); answer = step.now.answer } }
    {
        Receipt {
            site,
            index,
            asked: step.input.access(),
            answer: step.answer,
        }
    }

    /// The site that made the step.
    pub fn site(&self) -> SiteId
        ensures { result ≡ (receipt_of self.now).site }
    {
        self.site
    }

    /// The step's index in the site's log.
    pub fn index(&self) -> usize
        ensures { result ≡ (receipt_of self.now).index }
    {
        self.index
    }

    /// The access of the step, where it was one.
    pub fn asked_access(&self) -> Option<Asked>
        ensures { asked_of result ≡ (receipt_of self.now).asked }
    {
        self.asked
    }

    /// The step's answer.
    pub fn answer(&self) -> Answer
        ensures { result ≡ (receipt_of self.now).answer }
    {
        self.answer
    }
}
