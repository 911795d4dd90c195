//! How a set of sites is spelled.
use shm_place::SiteSet;
use std::fmt;

/// A set of sites as a word: a digit for each site.
#[derive(Clone, Copy)]
pub struct SetWord(pub SiteSet);

impl fmt::Display for SetWord {
    ghost use Rattle.std.specs.Prelude.{Some};
    ghost use Rattle.shm_state.specs.SetWord.{set_word};

    ghost output = { λ word. Some (set_word word.0) };

    fn fmt<W: fmt::Write>(&self, f: &mut fmt::Formatter<W>) -> fmt::Result {
        let members = self.0.members();
        'members: for member in &members {
            write!(f, "{}", MemberDigit(*member))?;
        }
        Ok(())
    }
}

/// The digit that says whether a site is in the set.
#[derive(Clone, Copy)]
struct MemberDigit(bool);

impl fmt::Display for MemberDigit {
    ghost use Rattle.std.specs.Prelude.{Some};
    ghost use Rattle.shm_state.specs.SetWord.{member_digit};

    ghost output = { λ digit. Some (member_digit digit.0) };

    fn fmt<W: fmt::Write>(&self, f: &mut fmt::Formatter<W>) -> fmt::Result {
        if self.0 {
            return write!(f, "1");
        }
        write!(f, "0")
    }
}
