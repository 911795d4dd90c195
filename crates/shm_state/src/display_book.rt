//! How a page's book is spelled.
use crate::display_set::SetWord;
use crate::part::BookPart;
use shm_model::Kind;
use shm_number::Number;
use std::fmt;

impl fmt::Display for BookPart {
    ghost use Rattle.std.specs.Prelude.{Some};
    ghost use Rattle.std.specs.List.{join_with_byte};
    ghost use Rattle.shm_state.specs.BookWords.{book_words};
    ghost use Rattle.shm_state.specs.PartOf.{book_in};

    ghost output = { λ book. Some (join_with_byte 32 (book_words (book_in book))) };

    /// The words behind the page.
    fn fmt<W: fmt::Write>(&self, f: &mut fmt::Formatter<W>) -> fmt::Result {
        let owner = self.owner.0;
        let copies = SetWord(self.copies);
        let number = self.number;
        let served = NumbersText(&self.served);
        match self.running {
            None => write!(f, "{owner} {copies} {number} idle{served}"),
            Some((Kind::Read, requester)) => {
                let requester = requester.0;
                write!(f, "{owner} {copies} {number} read {requester}{served}")
            }
            Some((Kind::Write, requester)) => {
                let requester = requester.0;
                write!(f, "{owner} {copies} {number} write {requester}{served}")
            }
        }
    }
}

/// Numbers, with a blank before each.
#[derive(Clone, Copy)]
struct NumbersText<'a>(&'a [Number]);

impl<'a> fmt::Display for NumbersText<'a> {
    ghost use Rattle.std.specs.Prelude.{Some};
    ghost use Rattle.shm_state.specs.BookWords.{numbers_text};

    ghost output = { λ text. Some (numbers_text text.0.now) };

    fn fmt<W: fmt::Write>(&self, f: &mut fmt::Formatter<W>) -> fmt::Result {
        'numbers: for number in self.0 {
            write!(f, " {number}")?;
        }
        Ok(())
    }
}
