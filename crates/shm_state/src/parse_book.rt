//! How a page's book is read.
ghost use Rattle.std.specs.Prelude.{◌≡◌, option_map, IfNone, IfSome, None, Some};
ghost use Rattle.shm_manager.specs.Book.{running_of};
ghost use Rattle.shm_state.specs.BookWords.{book_of, next_running, next_served};
ghost use Rattle.shm_state.specs.PartOf.{book_in};

use crate::parse_set::sites;
use crate::part::BookPart;
use shm_lines::Words;
use shm_model::Kind;
use shm_number::Number;
use shm_place::SiteId;
use shm_wire::words::{kind_named, wide};

/// The book, by the words behind the page.
pub fn book(words: Words<'_>) -> Option<BookPart>
    ensures { option_map book_in result ≡ book_of words.entry }
{
    let (owner, words) = words.number()?;
    let (copies, words) = sites(words)?;
    let (number, words) = wide(words)?;
    let (running, words) = running(words)?;
    let (served, words) = served(words)?;
    if !words.is_empty() {
        return None;
    }
    Some(BookPart {
        owner: SiteId(owner),
        copies,
        number,
        running,
        served,
    })
}

/// The next words as the transaction that runs, or `idle`, and those after them.
fn running(words: Words<'_>) -> Option<(Option<(Kind, SiteId)>, Words<'_>)>
    ensures some { IfSome result (λ r. next_running words.entry ≡ Some (running_of r.0, r.1)) }
    ensures none { IfNone result (next_running words.entry ≡ None) }
{
    let (word, words) = words.word()?;
    if word == b"idle".as_slice() {
        return Some((None, words));
    }
    let kind = kind_named(word)?;
    let (requester, words) = words.number()?;
    Some((Some((kind, SiteId(requester))), words))
}

/// The next words as a number of each site, and those after them.
fn served(words: Words<'_>) -> Option<([Number; 16], Words<'_>)>
    ensures { result ≡ next_served words.entry }
{
    let mut numbers = [0; 16];
    let mut words = words;
    'sites: for site in 0..16 {
        let (number, others) = wide(words)?;
        numbers[site] = number;
        words = others;
    }
    Some((numbers, words))
}
