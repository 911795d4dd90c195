ghost use Rattle.std.specs.Prelude.{◌≡◌, ℕ, None};
ghost use Rattle.shm_manager.specs.Book as spec;
ghost use Rattle.shm_model.specs.Book as model;
ghost use Rattle.shm_model.specs.declared.request_kind.Kind.{Kind};

/// What the book will do with a request for a right.
#[derive(Clone, Copy, Debug, PartialEq, Eq)]
pub enum Due {
    /// Nothing: it was served, or waits already, or there is no room to wait.
    Ignored,
    /// It would start a transaction for which no number is left.
    UsedUp,
    /// It waits until the transactions before it have ended.
    Waits,
    /// It starts a transaction.
    Starts,
}

impl Due {
    /// What becomes of the first request for a page, which has no book yet, for any site and any right.
    pub fn of_first(request: u64) -> Due
        ensures { (me from : ℕ) (kind : Kind) → result ≡ spec.due_of (model.on_ask from request kind (model.untouched_book me)) None }
    {
        if request == 0 {
            return Due::Ignored;
        }
        Due::Starts
    }

    /// Checks that the request starts a transaction.
    pub fn starts(self) -> bool
        ensures { result ≡ spec.starts self }
    {
        matches!(self, Due::Starts)
    }
}
