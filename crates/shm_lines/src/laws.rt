//! Laws of the definitions, for every line.
ghost use Rattle.std.specs.Prelude.{◌≡◌, ℕ, List, Some};
ghost use Rattle.shm_lines.specs.declared.script_line.Line.{Line};
ghost use Rattle.shm_lines.specs.Line.{line_of};
ghost use Rattle.shm_lines.specs.Spelling.{IsLine, spelling};

/// Each line has one spelling: what is read is spelled so, and what is spelled so is read.
pub fn lines_have_one_spelling()
    ensures read { (bytes : List ℕ) (line : Line) → line_of bytes ≡ Some line → IsLine line × (bytes ≡ spelling line) }
    ensures spelled { (line : Line) → IsLine line → line_of (spelling line) ≡ Some line }
{}
