//! Laws of the definitions: each is the contract of a function that does nothing.
ghost use Rattle.std.specs.List.{All, concat};
ghost use Rattle.std.specs.Prelude.{◌≡◌, ◌⊎◌, ◌++◌, [], ℕ, List, take, true, false};
ghost use Rattle.shm_process.specs.Node.{is_late};
ghost use Rattle.shm_process.specs.Recorded.{Event};
ghost use Rattle.shm_journal.specs.Found.{opened};
ghost use Rattle.shm_journal.specs.Lines.{Header, IsHeader};
ghost use Rattle.shm_journal.specs.Lives.{FindsLives, IsJournal, LeavesFront, after_lives};
ghost use Rattle.shm_batches.specs.BatchCrash.{Disk, LeavesBatches, MayLeaveFile, Unforged};
ghost use Rattle.shm_batches.specs.BatchLives.{LeavesNewWhole, LeavesWhole};
ghost use Rattle.shm_batches.specs.Chain.{Chain, Collision, chain_after, entries_at_end, file_text, is_marked, mark_line, unmarked};
ghost use Rattle.shm_batches.specs.Whole.{unmarked_text, whole_batches, whole_bytes, whole_on, whole_text};
ghost use Rattle.shm_batches.specs.Written.{IsBatch};

/// The last mark names all batches before it: journals of the same number of batches and the same last digest are the same, unless somebody
/// found two texts of one digest.
#[tactic(auto, using(crate::proofs::ChainLemmas::same_batches))]
pub fn a_mark_names_all_before_it()
    ensures { (ones others : List (List ℕ)) → chain_after unmarked ones ≡ chain_after unmarked others → (ones ≡ others) ⊎ Collision }
{}

/// Each mark of a chain is one by itself: it is found behind what is broken, too, where no more entries stand directly before its batch.
#[tactic(auto, using(crate::proofs::ChainLemmas::mark_is_marked))]
pub fn each_mark_is_found_alone()
    ensures { (chain : Chain) (before text : List ℕ) → entries_at_end (before ++ text) ≡ text → is_marked (before ++ text) (mark_line chain text) ≡ true }
{}

/// Batches that are written are read back, whatever stands behind them: they come first, and behind them what a reader that has taken them finds
/// in the rest.
#[tactic(auto, using(crate::proofs::WrittenLemmas::written_reads))]
pub fn what_is_written_reads_back()
    ensures { (texts : List (List ℕ)) (tail : List ℕ) → All IsBatch texts
        → whole_batches (file_text unmarked texts ++ tail) ≡ texts ++ whole_on (chain_after unmarked texts) [] tail }
{}

/// What a reader without marks gives of a file, up to the end of its last whole batch, is the lines of its whole batches: what is measured is
/// what is read, whatever the file holds.
#[tactic(auto, using(crate::proofs::WholeLemmas::front_reads))]
pub fn a_front_reads_back()
    ensures { (file : List ℕ) → unmarked_text (take (whole_bytes file) file) ≡ whole_text file }
{}

/// Whatever bytes a crash leaves behind the batches that are durable, a reader finds those, and of the batches that were appended since the first
/// ones: unless bytes that nobody wrote there form a batch with its digest. Their lines are what a crash may leave of a journal without marks.
#[tactic(auto, using(crate::proofs::CrashLemmas::leaves_batches))]
pub fn a_crash_leaves_batches()
    ensures { (disk : Disk) (file : List ℕ) → All IsBatch disk.durable → MayLeaveFile disk file → LeavesBatches disk file }
{}

/// Where a crash cuts what was appended, wherever it does, nothing is forged: only other bytes could be.
#[tactic(auto, using(crate::proofs::CutLemmas::cut_unforged))]
pub fn a_cut_is_not_forged()
    ensures { (disk : Disk) (n : ℕ) → All IsBatch disk.loose
        → Unforged disk (take n (file_text (chain_after unmarked disk.durable) disk.loose)) }
{}

/// At any moment of a life that began with whole batches, whatever comes in that life, a crash leaves all batches that are durable, and of those
/// appended since the first ones, unless bytes that nobody wrote form a batch. Their lines are a sound journal: it leads to the site after all
/// whose entries were durable, and at most what had happened since. A journal that is begun may have its header alone, or nothing.
pub fn a_crash_leaves_whole_batches()
    ensures begun { (header : Header) (texts : List (List ℕ)) → IsHeader header → All IsBatch texts → concat texts ≡ []
        → LeavesNewWhole header texts }
    ensures goes_on { (header : Header) (lives : List (List Event)) (texts : List (List ℕ)) → IsHeader header → IsJournal header lives (concat texts)
        → is_late (after_lives (opened header) lives) 0 ≡ false → All IsBatch texts → LeavesWhole header lives texts }
{}

/// With that the next life begins: a file's whole batches may be written, and where their lines are a sound journal nothing of it is torn.
pub fn the_next_life_begins_with_whole_batches()
    ensures batches { (file : List ℕ) → All IsBatch (whole_batches file) }
    ensures begun { (header : Header) (durable file : List ℕ) → LeavesFront header durable (whole_text file)
        → (whole_text file ≡ []) ⊎ IsJournal header [] (whole_text file) }
    ensures goes_on { (header : Header) (lives : List (List Event)) (journal file : List ℕ) → FindsLives header lives journal (whole_text file)
        → (whole_text file ≡ journal) × IsJournal header lives (whole_text file) }
{}
