//! Laws of the definitions: of every line, and of every run of a process.
ghost use Rattle.std.specs.Prelude.{◌≡◌, ◌∷◌, ◌++◌, [], ℕ, Bool, List, None, Some, false};
ghost use Rattle.shm_journal.specs.Begun.{Beginning, IsBeginning, IsKeptSite, KeptSite, header_text, state_text};
ghost use Rattle.shm_journal.specs.Crash.{KeepsBeforeTelling};
ghost use Rattle.shm_journal.specs.DeskFrom.{desk_from};
ghost use Rattle.shm_journal.specs.Found.{Sound, found, opened};
ghost use Rattle.shm_journal.specs.Lines.{Header, IsHeader, header_line, read_entry, read_header};
ghost use Rattle.shm_journal.specs.Lives.{AreTaken, FindsLives, FindsLivesFrom, IsJournal, IsJournalFrom, LeavesNewSound, LeavesSound, LeavesSoundFrom, after_lives, journal_of_steps};
ghost use Rattle.shm_journal.specs.Shortened.{Shortens, rested};
ghost use Rattle.shm_journal.specs.Shortenings.{IsIdle, LeavesShorterSound};
ghost use Rattle.shm_journal.specs.Stretches.{Rests};
ghost use Rattle.shm_journal.specs.declared.service_stop.Stop.TheVariants.{Due};
ghost use Rattle.shm_journal.specs.StateLines.{IsStateLine, StateLine, read_state, state_line};
ghost use Rattle.shm_process.specs.Desk.{Desk, cleared, on_bytes, restarted};
ghost use Rattle.shm_process.specs.Node.{Node, is_late};
ghost use Rattle.shm_process.specs.Recorded.{Entry, Event, IsEntry, after_events, entry_line, kept};
ghost use Rattle.shm_process.specs.declared.process_counts.Start.{Start};
ghost use Rattle.shm_seal.specs.Seal.{Seal};

/// Each header has one spelling: what is read is spelled so, and what is spelled so is read.
pub fn headers_have_one_spelling()
    ensures read { (line : List ℕ) (header : Header) → read_header line ≡ Some header → IsHeader header × (line ≡ header_line header) }
    ensures spelled { (header : Header) → IsHeader header → read_header (header_line header) ≡ Some header }
{}

/// Each entry has one spelling: what is read is spelled so, and what is spelled so is read.
pub fn entries_have_one_spelling()
    ensures read { (line : List ℕ) (entry : Entry) → read_entry line ≡ Some entry → IsEntry entry × (line ≡ entry_line entry) }
    ensures spelled { (entry : Entry) → IsEntry entry → read_entry (entry_line entry) ≡ Some entry }
{}

/// Each line of a state has one spelling: what is read is spelled so, and what is spelled so is read; and none is an entry.
pub fn state_lines_have_one_spelling()
    ensures read { (line : List ℕ) (told : StateLine) → read_state line ≡ Some told → IsStateLine told × (line ≡ state_line told) }
    ensures spelled { (told : StateLine) → IsStateLine told → read_state (state_line told) ≡ Some told }
    ensures apart { (line : List ℕ) (told : StateLine) → read_state line ≡ Some told → read_entry line ≡ None }
{}

/// Whenever an answer or an envelope is written, the entries of all steps that it tells of are durable in the journal. So a crash at any
/// moment leaves them there.
pub fn nothing_is_told_before_it_is_durable()
    ensures { (desk : Desk) (reads : List (List ℕ)) (file : List ℕ) → KeepsBeforeTelling desk reads file }
{}

/// A journal that a site left is found sound, whatever it took in each of its lives: its header, and the entries of all that happened, however many
/// steps share an entry. It leads to the site after them, less the asks that waited and the counts of lines.
pub fn a_journal_that_was_served_is_found_sound()
    ensures anew { (header : Header) (lives : List (List Event)) (journal : List ℕ) → IsHeader header → IsJournal header lives journal
        → FindsLives header lives journal journal }
    ensures from { (b : Beginning) (lives : List (List Event)) (journal : List ℕ) → IsBeginning b → IsJournalFrom b lives journal
        → FindsLivesFrom b lives journal journal }
{}

/// A journal that begins with a state leads to the site that goes on from it, less what the state doesn't tell: the asks that waited and the
/// counts of lines. Its lives lead on from there.
pub fn a_state_leads_to_its_site()
    ensures { (header : Header) (site : KeptSite) (node : Node) → IsHeader header → IsKeptSite header site node
        → found header (header_text header ++ state_text site) ≡ Sound node }
{}

/// A journal leads to the site that its header names.
pub fn a_journal_leads_to_the_site_of_its_header()
    ensures sites { (header : Header) (file : List ℕ) (node : Node) → found header file ≡ Sound node → node.sites ≡ header.sites }
    ensures me { (header : Header) (file : List ℕ) (node : Node) → found header file ≡ Sound node → node.me ≡ header.me }
{}

/// So is what a crash leaves of it, at any moment of a further life, whatever comes in that life: it leads to the site after all whose entries
/// were durable, and at most what had happened since; and its whole lines are a journal that the next life begins with. That life begins
/// with a restart, for which there has to be a clock.
pub fn a_crash_leaves_a_sound_journal()
    ensures begun { (header : Header) → IsHeader header → LeavesNewSound header }
    ensures goes_on { (header : Header) (lives : List (List Event)) (journal : List ℕ) → IsHeader header → IsJournal header lives journal
        → is_late (after_lives (opened header) lives) 0 ≡ false → LeavesSound header lives journal }
    ensures goes_on_from { (b : Beginning) (lives : List (List Event)) (journal : List ℕ) → IsBeginning b → IsJournalFrom b lives journal
        → is_late (after_lives b.node lives) 0 ≡ false → LeavesSoundFrom b lives journal }
{}

/// A journal with an entry for each step, as earlier versions kept them, is one of the lives whose steps it records, whatever a desk took in
/// them. So it is found sound too.
pub fn a_journal_of_single_steps_is_found_sound()
    ensures is { (header : Header) (lives : List (List Event)) → AreTaken lives → IsJournal header lives (journal_of_steps header lives) }
    ensures found { (header : Header) (lives : List (List Event)) → IsHeader header → AreTaken lives
        → FindsLives header lives (journal_of_steps header lives) (journal_of_steps header lives) }
{}

/// In its next life a site maps the pages that it mapped when the last one ended: its journal leads there, and a restart changes none. In the
/// first life behind a state it maps those that the state tells.
pub fn a_restart_maps_what_was_mapped()
    ensures anew { (header : Header) (seal : Seal) (start : Start) (lives : List (List Event)) (life : List Event)
        → (desk_from header seal false (after_lives (opened header) (lives ++ life ∷ [])) start).node.mapped
        ≡ (after_events (after_lives (opened header) lives) life).mapped }
    ensures from { (b : Beginning) (seal : Seal) (start : Start) (lives : List (List Event)) (life : List Event)
        → (desk_from b.header seal false (after_lives b.node (lives ++ life ∷ [])) start).node.mapped
        ≡ (after_events (after_lives b.node lives) life).mapped }
    ensures state { (header : Header) (seal : Seal) (start : Start) (site : KeptSite) (node : Node) → IsKeptSite header site node
        → (desk_from header seal false node start).node.mapped ≡ site.mapped }
{}

/// A shortened journal is found sound: it leads to the site as a restart leaves it. It is one that further lives can follow.
pub fn a_shortened_journal_is_found_sound()
    ensures found { (header : Header) (node : Node) (text : List ℕ) → IsHeader header → Shortens header node text
        → found header text ≡ Sound (rested node) }
    ensures begins { (header : Header) (node : Node) (text : List ℕ) → IsHeader header → Shortens header node text
        → IsBeginning (record { header = header; text = text; node = rested node }) }
{}

/// A site goes on from a shortened journal as it would from the whole one: its next life begins with a restart, and what a restart takes is gone
/// already.
pub fn a_site_goes_on_from_a_shortened_journal()
    ensures { (header : Header) (seal : Seal) (node : Node) (start : Start)
        → desk_from header seal false (rested node) start ≡ desk_from header seal false (kept node) start }
{}

/// A journal that is made shorter while its site runs, at rest, stays sound: whatever the site takes behind it, a crash at any moment leaves a
/// file that leads to the site as the state tells it, or as it was after its restart and all whose entries were durable, and at most what had
/// happened since.
pub fn a_journal_made_shorter_while_its_site_runs_stays_sound()
    ensures { (header : Header) (desk : Desk) (text : List ℕ) → IsHeader header → IsIdle desk → Rests Due desk → Shortens header desk.node text
        → LeavesShorterSound header desk text }
{}

/// A process has such a desk behind each read, once that is published: from its beginning on, and from each restart.
pub fn a_desk_is_idle_behind_each_read()
    ensures begun { (header : Header) (seal : Seal) (is_new : Bool) (node : Node) (start : Start) → IsIdle (cleared (desk_from header seal is_new node start)) }
    ensures read { (desk : Desk) (bytes : List ℕ) → IsIdle desk → IsIdle (cleared (on_bytes desk bytes)) }
    ensures again { (desk : Desk) → IsIdle desk → IsIdle (cleared (restarted desk)) }
{}
