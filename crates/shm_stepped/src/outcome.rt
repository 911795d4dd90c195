//! How an access that is made until it is answered ends.
use crate::access_cost::Cost;
use shm_model::Answer;
use thiserror::Error;

/// An access that was answered.
#[derive(Clone, Copy, Debug, PartialEq, Eq)]
pub struct Done {
    /// A byte, `Stored` or a refusal.
    pub answer: Answer,
    /// What the events that were made for it cost, the access among them.
    pub cost: Cost,
}

/// Why an access wasn't answered, and what it cost until then.
#[derive(Clone, Copy, Debug, PartialEq, Eq, Error)]
pub enum Unanswered {
    /// All events of the budget were made, and the access still waits.
    #[error("the access still waits after {} events", .0.events)]
    BudgetSpent(Cost),
    /// Memory was refused at the next event.
    #[error("out of memory after {} events", .0.events)]
    OutOfMemory(Cost),
}
