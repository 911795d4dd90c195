//! Laws of the definitions, for every line.
ghost use Rattle.std.specs.Prelude.{◌≡◌, ℕ, List, None, Some};
ghost use Rattle.shm_wire.specs.Answers.{TellLine, IsTellLine, tell_line, read_tell_line};
ghost use Rattle.shm_wire.specs.Line.{IsLine, Line, line_text, read_line};

/// Each line that is for a site has one spelling: what is read is spelled so, and what is spelled so is read.
pub fn lines_have_one_spelling()
    ensures read { (bytes : List ℕ) (line : Line) → read_line bytes ≡ Some line → IsLine line × (bytes ≡ line_text line) }
    ensures spelled { (line : Line) → IsLine line → read_line (line_text line) ≡ Some line }
{}

/// Each answer has one spelling: what is read is spelled so, and what is spelled so is read.
pub fn answers_have_one_spelling()
    ensures read { (bytes : List ℕ) (answer : TellLine) → read_tell_line bytes ≡ Some answer → IsTellLine answer × (bytes ≡ tell_line answer) }
    ensures spelled { (answer : TellLine) → IsTellLine answer → read_tell_line (tell_line answer) ≡ Some answer }
{}

/// No line is for both a site and a caller.
pub fn each_line_is_of_one_kind()
    ensures lines { (bytes : List ℕ) (line : Line) → read_line bytes ≡ Some line → read_tell_line bytes ≡ None }
    ensures answers { (bytes : List ℕ) (answer : TellLine) → read_tell_line bytes ≡ Some answer → read_line bytes ≡ None }
{}
