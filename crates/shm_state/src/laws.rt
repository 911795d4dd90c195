//! Laws of the definitions, for every line.
ghost use Rattle.std.specs.Prelude.{◌≡◌, ℕ, List, None, Some};
ghost use Rattle.shm_wire.specs.Answers.{read_tell_line};
ghost use Rattle.shm_wire.specs.Line.{read_line};
ghost use Rattle.shm_state.specs.Part.{Part};
ghost use Rattle.shm_state.specs.PartWords.{IsPart, part_line, read_part};

/// Each part of a state has one spelling: what is read is spelled so, and what is spelled so is read.
pub fn parts_have_one_spelling()
    ensures read { (bytes : List ℕ) (part : Part) → read_part bytes ≡ Some part → IsPart part × (bytes ≡ part_line part) }
    ensures spelled { (part : Part) → IsPart part → read_part (part_line part) ≡ Some part }
{}

/// No line of a state is one of the stream, for a site or for a caller.
pub fn parts_are_not_of_the_stream()
    ensures lines { (bytes : List ℕ) (part : Part) → read_part bytes ≡ Some part → read_line bytes ≡ None }
    ensures answers { (bytes : List ℕ) (part : Part) → read_part bytes ≡ Some part → read_tell_line bytes ≡ None }
{}
