//! The line by which a site says to another how it was begun.
ghost use Rattle.std.specs.Prelude.{◌≡◌};
ghost use Rattle.shm_process.specs.Hello.{numbers_of, past, past_stamp, read_hello};

use shm_lines::Words;
use std::fmt;

/// A hello: `env FROM TO 0 0 0 hello SITES PAGES`. It is spelled as an envelope is, so that it is carried as one, but it is no line that a
/// site takes.
#[derive(Clone, Copy, Debug, PartialEq, Eq)]
pub struct Hello {
    /// The site that says it.
    pub from: u32,
    /// The site that it is for.
    pub to: u32,
    /// How many sites the first was begun with.
    pub sites: u32,
    /// How many pages of segment 0 it was begun with.
    pub pages: u32,
}

impl fmt::Display for Hello {
    ghost use Rattle.std.specs.Prelude.{Some};
    ghost use Rattle.shm_process.specs.Hello.{hello_text};

    ghost output = { λ hello. Some (hello_text hello) };

    /// The line, without a line feed.
    fn fmt<W: fmt::Write>(&self, f: &mut fmt::Formatter<W>) -> fmt::Result {
        let Hello {
            from,
            to,
            sites,
            pages,
        } = *self;
        write!(f, "env {from} {to} 0 0 0 hello {sites} {pages}")
    }
}

/// Reads a line, without its line feed and its seal, as a hello. `None` where it is none.
pub fn parse_hello(line: &[u8]) -> Option<Hello>
    ensures { result ≡ read_hello line.now }
{
    let words = past(Words::of(line), b"env".as_slice())?;
    let (from, words) = words.number()?;
    let (to, words) = words.number()?;
    let words = past_stamp(words)?;
    parse_numbers(from, to, words)
}

/// Reads `0 0 0 hello`.
fn past_stamp(words: Words<'_>) -> Option<Words<'_>>
    ensures { result ≡ past_stamp words.entry }
{
    let words = past(words, b"0".as_slice())?;
    let words = past(words, b"0".as_slice())?;
    let words = past(words, b"0".as_slice())?;
    past(words, b"hello".as_slice())
}

/// Reads `SITES PAGES`, and no more.
fn parse_numbers(from: u32, to: u32, words: Words<'_>) -> Option<Hello>
    ensures { result ≡ numbers_of from to words.entry }
{
    let (sites, words) = words.number()?;
    let (pages, words) = words.number()?;
    if !words.is_empty() {
        return None;
    }
    Some(Hello {
        from,
        to,
        sites,
        pages,
    })
}

/// Reads this word.
fn past<'a>(words: Words<'a>, name: &[u8]) -> Option<Words<'a>>
    ensures { result ≡ past name.now words.entry }
{
    let (word, words) = words.word()?;
    if word != name {
        return None;
    }
    Some(words)
}
