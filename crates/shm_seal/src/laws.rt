//! Laws of the definitions, for every seal and every line.
ghost use Rattle.std.specs.Prelude.{◌≡◌, ℕ, List, Ok};
ghost use Rattle.shm_seal.specs.Seal.{Seal, opened, sealed};

/// What is opened is exactly what was sealed: a line that is opened ends with the cluster's name and, under a key, with exactly its digest;
/// and each sealed line is opened again. So each line has one seal.
#[tactic(auto, using(crate::proofs::SealLemmas::opened_is_sealed, crate::proofs::SealLemmas::sealed_is_opened))]
pub fn what_is_opened_was_sealed()
    ensures opened { (seal : Seal) (line inner : List ℕ) → opened seal line ≡ Ok inner → line ≡ sealed seal inner }
    ensures sealed { (seal : Seal) (inner : List ℕ) → opened seal (sealed seal inner) ≡ Ok inner }
{}
