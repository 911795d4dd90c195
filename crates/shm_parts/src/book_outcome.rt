use shm_manager::Orders;

/// What became of a message to a manager's book.
#[derive(Drop)]
pub enum Outcome {
    /// The message was ignored, and nothing changed.
    Ignored,
    /// No number is left for the transaction that it would start, and nothing changed.
    UsedUp,
    /// The book changed; these orders go out under the number of its last transaction.
    Taken { number: u64, orders: Orders },
}
