//! A row of one book's table, and what became of its message.
ghost use Rattle.std.specs.Prelude.{◌≡◌, ◌<◌, ◌≤◌, ℕ, true, Some, length, is_some, IfNone, IfSome};
ghost use Rattle.shm_manager.specs.Book.{book_of, due_of, row_of, run_of};
ghost use Rattle.shm_manager.specs.Orders.{orders_of};
ghost use Rattle.shm_model.specs.Book as model;
ghost use Rattle.shm_parts.specs.Books.{given_by, orders_in, IsSettled};

use crate::book_outcome::Outcome;
use crate::stored_entry_and_book::StoredBook;
use shm_manager::{Due, Kind, Orders};
use shm_place::SiteId;
use std::alloc::Allocator;

fn outcome_of(answer: Option<Orders>, number: u64) -> Outcome
    ensures row { (after : model.Book) → given_by result after ≡ row_of answer after }
    ensures settled { (old new : model.Book) → IfNone answer (new ≡ old) → number ≡ new.number → IsSettled result old new }
    ensures few { (n : ℕ) → IfSome answer (λ orders. length (orders_of orders) ≤ n) → length (orders_in result) ≤ n }
{
    match answer {
        None => Outcome::Ignored,
        Some(orders) => Outcome::Taken { number, orders },
    }
}

/// A request for a right, of which was found out before what becomes of it.
pub(crate) fn ask_in<A: Allocator + Copy>(
    book: &mut StoredBook<A>,
    due: Due,
    from: SiteId,
    request: u64,
    kind: Kind,
) -> Outcome
    requires site { from < 16 }
    requires due { due ≡ due_of (model.on_ask from request kind (book_of book.old)) (book_of book.old).running }
    ensures row { given_by result (book_of book.new) ≡ model.on_ask from request kind (book_of book.old) }
    ensures settled { IsSettled result (book_of book.old) (book_of book.new) }
{
    match book.book.ask_due(due, from, request, kind) {
        Err(_) => Outcome::UsedUp,
        Ok(answer) => outcome_of(answer, book.book.number()),
    }
}

/// A site has given up its copy.
pub(crate) fn cleared_in<A: Allocator + Copy>(
    book: &mut StoredBook<A>,
    from: SiteId,
    number: u64,
) -> Outcome
    requires { from < 16 }
    ensures row { given_by result (book_of book.new) ≡ model.on_cleared from number (book_of book.old) }
    ensures settled { IsSettled result (book_of book.old) (book_of book.new) }
    ensures one { length (orders_in result) ≤ 1 }
    ensures idle { is_some (book_of book.new).running ≡ true → is_some (book_of book.old).running ≡ true }
{
    let answer = book.book.cleared(from, number);
    outcome_of(answer, book.book.number())
}

/// What the transaction that a Confirm ends gives, if the Confirm ends the running one. Changes nothing yet.
pub(crate) fn ending_in<A: Allocator + Copy>(
    book: &StoredBook<A>,
    from: SiteId,
    number: u64,
) -> Option<Kind>
    ensures runs { IfSome result (λ kind. (book_of book.now).running ≡ Some (run_of kind from)) }
    ensures row { IfSome result (λ kind. model.on_confirm from number (book_of book.now)
        ≡ model.serve_next (model.ended (run_of kind from) (book_of book.now))) }
    ensures ignored { IfNone result (model.on_confirm from number (book_of book.now) ≡ model.Ignored) }
{
    book.book.ending(from, number)
}

/// A site has what it asked for, of which was found out before that it ends the transaction.
pub(crate) fn confirm_in<A: Allocator + Copy>(
    book: &mut StoredBook<A>,
    kind: Kind,
    from: SiteId,
) -> Outcome
    requires { from < 16 }
    ensures row { given_by result (book_of book.new) ≡ model.serve_next (model.ended (run_of kind from) (book_of book.old)) }
    ensures settled { IsSettled result (book_of book.old) (book_of book.new) }
{
    let orders = book.book.confirm_ending(kind, from);
    Outcome::Taken {
        number: book.book.number(),
        orders,
    }
}

/// Forgets what a restart of the manager loses of the book.
pub(crate) fn forget_volatile_in<A: Allocator + Copy>(book: &mut StoredBook<A>)
    ensures { book_of book.new ≡ model.without_volatile (book_of book.old) }
{
    book.book.forget_volatile();
}

/// Checks that the book has a running transaction.
pub(crate) fn runs<A: Allocator + Copy>(book: &StoredBook<A>) -> bool
    ensures { result ≡ is_some (book_of book.now).running }
{
    book.book.running().is_some()
}
