//! Laws of journals: each is the contract of a function that does nothing.
ghost use Rattle.std.specs.Prelude.{◌≡◌, ◌≤◌, ◌++◌, ℕ, List, Some, length, option_map, true};
ghost use Rattle.shm_process.specs.Node.{Said, new_node};
ghost use Rattle.shm_process.specs.Recorded.{Entry, Event, after_events, all_steps, entries_of, said_at};
ghost use Rattle.shm_process.specs.WaitingAsks.{Writes, ask_in};
ghost use Rattle.shm_process.specs.Waiting.{says_at};
ghost use Rattle.shm_process.specs.Writes.{Write};
ghost use Rattle.shm_model.specs.declared.answer.Answer.TheVariants.{Stored};
ghost use Rattle.shm_journal.specs.Begun.{Beginning, BeginsWithState, IsBeginning};
ghost use Rattle.shm_journal.specs.Found.{Partial, Sound, max_journal_line, opened};
ghost use Rattle.shm_journal.specs.Lines.{Header, IsHeader};
ghost use Rattle.shm_journal.specs.LinesOf.{Unended};
ghost use Rattle.shm_journal.specs.Lives.{FindsLives, FindsLivesFrom, IsJournal, after_lives};
ghost use Rattle.shm_journal.specs.Summed.{found_any};
ghost use Rattle.shm_logs.specs.Boxes.Box.{new_box};
ghost use Rattle.shm_audit.specs.Entered.{box_after_all, box_after_entries};
ghost use Rattle.shm_audit.specs.Found.{found, in_limits};
ghost use Rattle.shm_audit.specs.Lived.{FindsLog};
ghost use Rattle.shm_audit.specs.Loads.{IsLoadedBlock, made_by};
ghost use Rattle.shm_audit.specs.Stores.{IsStoredBlock};
ghost use Rattle.shm_audit.specs.Told.{told_at, told_by_log};

/// Take any run of a site's process from its first line on, restarts included. Its steps lead a box to a log whose stamps, answers and
/// envelopes are those of what the process said, step by step. So do entries that record these steps, whichever of them share one. So an
/// audit of the logs speaks of what callers were told.
pub fn a_log_tells_what_was_said()
    ensures steps { (sites me pages : ℕ) (events : List Event) → option_map told_by_log
        (box_after_all (new_box sites me pages) (entries_of (new_node sites me pages) events)) ≡ Some (told_at (new_node sites me pages) events) }
    ensures entries { (sites me pages : ℕ) (events : List Event) (entries : List Entry) → all_steps entries ≡ entries_of (new_node sites me pages) events
        → option_map told_by_log (box_after_entries (new_box sites me pages) entries) ≡ Some (told_at (new_node sites me pages) events) }
{}

/// What an audit reads from a site's journal is the log of all that happened, in each of the site's lives: exactly the steps that its process
/// recorded, which tell what the process said. What is torn behind them changes nothing. In every file that the site itself finds sound, as one
/// that a crash left, the audit finds the log of the same lives.
pub fn an_audit_finds_the_log_of_all_lives()
    ensures whole { (header : Header) (lives : List (List Event)) (journal : List ℕ) → IsHeader header → in_limits header ≡ true
        → IsJournal header lives journal → FindsLog header lives journal }
    ensures torn { (header : Header) (lives : List (List Event)) (journal torn : List ℕ) → IsHeader header → in_limits header ≡ true
        → IsJournal header lives journal → Unended torn → length torn ≤ max_journal_line → FindsLog header lives (journal ++ torn) }
    ensures sound { (header : Header) (lives : List (List Event)) (journal file : List ℕ) → IsHeader header → in_limits header ≡ true
        → FindsLives header lives journal file → FindsLog header lives file }
{}

/// Who sums up any site's journal finds there the site after all its lives, as the site itself does, also where the journal begins with a state.
/// What is torn behind them changes nothing.
pub fn a_summary_finds_the_site_after_all_lives()
    ensures whole { (header : Header) (lives : List (List Event)) (journal : List ℕ) → IsHeader header → in_limits header ≡ true
        → IsJournal header lives journal → found_any journal ≡ Sound (after_lives (opened header) lives) }
    ensures torn { (header : Header) (lives : List (List Event)) (journal torn : List ℕ) → IsHeader header → in_limits header ≡ true
        → IsJournal header lives journal → Unended torn → length torn ≤ max_journal_line
        → found_any (journal ++ torn) ≡ Sound (after_lives (opened header) lives) }
    ensures sound { (header : Header) (lives : List (List Event)) (journal file : List ℕ) → IsHeader header → in_limits header ≡ true
        → FindsLives header lives journal file → found_any file ≡ Sound (after_lives (opened header) lives) }
    ensures from { (b : Beginning) (lives : List (List Event)) (journal file : List ℕ) → IsBeginning b → in_limits b.header ≡ true
        → FindsLivesFrom b lives journal file → found_any file ≡ Sound (after_lives b.node lives) }
{}

/// A journal that begins with a state has no whole log, whatever lives follow: the steps before the state aren't there. An audit finds a part,
/// in every file that the site itself finds sound.
pub fn a_journal_that_begins_with_a_state_has_no_whole_log()
    ensures { (b : Beginning) (lives : List (List Event)) (journal file : List ℕ) → IsBeginning b → BeginsWithState b → in_limits b.header ≡ true
        → FindsLivesFrom b lives journal file → found file ≡ Partial }
{}

/// A block that a caller gets has exactly the bytes that were asked for, in order, from the ask's offset on, through its attachment. Each
/// is the answer to a load of its own place: a step that the site's process made since the ask came, of the line `load` under the ask's
/// tag. The last of these steps is the one that answers the block. So what an audit says of loads holds of each of its bytes.
pub fn a_block_is_what_its_loads_gave()
    ensures { (sites me pages : ℕ) (events : List Event) (event : Event) (said : Said) (bytes : List ℕ)
        → said_at (after_events (new_node sites me pages) events) event ≡ Some said → said.block ≡ Some bytes
        → IsLoadedBlock me (new_node sites me pages) events said.tag (made_by said) bytes }
{}

/// A block that a caller is told is stored has all its stores among the steps that the site's process made since the ask came: each byte at
/// its own place, in order, of the line `store` under the ask's tag. The last of these steps is the one that answers the block.
pub fn a_block_is_stored_by_its_stores()
    ensures { (sites me pages : ℕ) (events : List Event) (at : ℕ) (write : Write) (tag : List ℕ)
        → ask_in (after_events (new_node sites me pages) events).waiting at ≡ Writes write
        → (says_at (after_events (new_node sites me pages) events) at).answer ≡ Stored
        → (says_at (after_events (new_node sites me pages) events) at).tag ≡ Some tag
        → IsStoredBlock me (new_node sites me pages) events (says_at (after_events (new_node sites me pages) events) at).tag
        (made_by (says_at (after_events (new_node sites me pages) events) at)) write }
{}
