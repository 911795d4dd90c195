//! Worked scripts: each function's contract says that the definitions compute its script line by line.

ghost use Rattle.shm_model.specs.World.{New, Preset, Framed};
ghost use Rattle.shm_laws.specs.Rows.Script.{Plays};
ghost use Rattle.shm_laws.specs.Rows.Pages;
ghost use Rattle.shm_laws.specs.Rows.Network;
ghost use Rattle.shm_laws.specs.Rows.Frames;
ghost use Rattle.shm_laws.specs.Rows.Segments;
ghost use Rattle.shm_laws.specs.Rows.Removal;
ghost use Rattle.shm_laws.specs.Rows.Invented;
ghost use Rattle.shm_laws.specs.Rows.Table;

/// One site alone has the page of the opening, all zero.
#[tactic(auto, using(crate::proofs::Played::Pages::smallest_world))]
pub fn smallest_world()
    ensures row { Plays (Preset 1 1) Pages.smallest_world }
{}

/// A first read: the manager is asked, the owner lends a copy, the reader confirms.
#[tactic(auto, using(crate::proofs::Played::Pages::first_read_fault))]
pub fn first_read_fault()
    ensures row { Plays (Preset 2 1) Pages.first_read_fault }
{}

/// A reader asks to write: the owner hands the page over, and asks to read it afterwards.
#[tactic(auto, using(crate::proofs::Played::Pages::reader_becomes_writer))]
pub fn reader_becomes_writer()
    ensures row { Plays (Preset 2 1) Pages.reader_becomes_writer }
{}

/// Three requests wait for one page; the write clears two copies first, out of order, one Clear repeated.
#[tactic(auto, using(crate::proofs::Played::Pages::queued_reads_then_two_clears))]
pub fn queued_reads_then_two_clears()
    ensures row { Plays (Preset 4 1) Pages.queued_reads_then_two_clears }
{}

/// The owner lent two copies and wants to write: both are cleared before it may.
#[tactic(auto, using(crate::proofs::Played::Pages::owner_upgrades))]
pub fn owner_upgrades()
    ensures row { Plays (Preset 3 1) Pages.owner_upgrades }
{}

/// Each page is at its manager at first.
#[tactic(auto, using(crate::proofs::Played::Pages::pages_at_managers))]
pub fn pages_at_managers()
    ensures row { Plays (Preset 2 2) Pages.pages_at_managers }
{}

/// The last byte of a page, the first of the next, and past the end.
#[tactic(auto, using(crate::proofs::Played::Pages::page_boundaries))]
pub fn page_boundaries()
    ensures row { Plays (Preset 2 2) Pages.page_boundaries }
{}

/// The order of refusals: of an access, and of a segment call.
#[tactic(auto, using(crate::proofs::Played::Pages::order_of_refusals))]
pub fn order_of_refusals()
    ensures row { Plays (Preset 2 1) Pages.order_of_refusals }
{}

/// The order in which a tick asks again; a store replaces the load that its site asked for.
#[tactic(auto, using(crate::proofs::Played::Pages::order_of_asks))]
pub fn order_of_asks()
    ensures row { Plays (Preset 3 4) Pages.order_of_asks }
{}

/// A tick sends the Asks, then what the books want in the order of their first transactions, then the call.
#[tactic(auto, using(crate::proofs::Played::Pages::order_of_a_tick))]
pub fn order_of_a_tick()
    ensures row { Plays (Preset 2 5) Pages.order_of_a_tick }
{}

/// A Page that comes again is confirmed and not installed again.
#[tactic(auto, using(crate::proofs::Played::Network::repeated_page))]
pub fn repeated_page()
    ensures row { Plays (Preset 2 1) Network.repeated_page }
{}

/// A Page that comes again after its copy was cleared is dropped.
#[tactic(auto, using(crate::proofs::Played::Network::stale_page_after_clear))]
pub fn stale_page_after_clear()
    ensures row { Plays (Preset 2 1) Network.stale_page_after_clear }
{}

/// The Page that hands over was lost: the Hand is sent again, and the bytes are still there.
#[tactic(auto, using(crate::proofs::Played::Network::lost_page))]
pub fn lost_page()
    ensures row { Plays (Preset 2 1) Network.lost_page }
{}

/// An Ask that comes again is served once.
#[tactic(auto, using(crate::proofs::Played::Network::repeated_ask))]
pub fn repeated_ask()
    ensures row { Plays (Preset 2 1) Network.repeated_ask }
{}

/// A Hand that comes again sends the same Page again.
#[tactic(auto, using(crate::proofs::Played::Network::repeated_hand))]
pub fn repeated_hand()
    ensures row { Plays (Preset 2 1) Network.repeated_hand }
{}

/// The reader restarts, asks again, and gets what it asked for before.
#[tactic(auto, using(crate::proofs::Played::Network::requester_restarts))]
pub fn requester_restarts()
    ensures row { Plays (Preset 2 1) Network.requester_restarts }
{}

/// The manager forgets who answered its Clear, and asks both again.
#[tactic(auto, using(crate::proofs::Played::Network::manager_restarts_while_clearing))]
pub fn manager_restarts_while_clearing()
    ensures row { Plays (Preset 3 1) Network.manager_restarts_while_clearing }
{}

/// What a restart keeps: the bytes, the right, and the number met, so that an old Page is still dropped.
#[tactic(auto, using(crate::proofs::Played::Network::readers_restart))]
pub fn readers_restart()
    ensures row { Plays (Preset 2 1) Network.readers_restart }
{}

/// A Hand lends the page to a site that owns it by now: its right to write stays.
#[tactic(auto, using(crate::proofs::Played::Network::owner_is_handed_to_read))]
pub fn owner_is_handed_to_read()
    ensures row { Plays (Preset 2 1) Network.owner_is_handed_to_read }
{}

/// Sixteen requests wait, the next is dropped.
#[tactic(auto, using(crate::proofs::Played::Network::sixteen_wait))]
pub fn sixteen_wait()
    ensures row { Plays (Preset 3 1) Network.sixteen_wait }
{}

/// The second copy drops the first, whose site still answers the Clear.
#[tactic(auto, using(crate::proofs::Played::Frames::frames))]
pub fn frames()
    ensures row { Plays (Framed 2 4 1) Frames.frames }
{}

/// A copy that comes again is the last to go.
#[tactic(auto, using(crate::proofs::Played::Frames::copy_again))]
pub fn copy_again()
    ensures row { Plays (Framed 2 5 2) Frames.copy_again }
{}

/// A dropped copy keeps the number that it met: an old Page is dropped.
#[tactic(auto, using(crate::proofs::Played::Frames::dropped_copy))]
pub fn dropped_copy()
    ensures row { Plays (Framed 2 3 1) Frames.dropped_copy }
{}

/// A segment is made and attached twice, once only to read.
#[tactic(auto, using(crate::proofs::Played::Segments::segment_calls))]
pub fn segment_calls()
    ensures row { Plays (New 1) Segments.segment_calls }
{}

/// Get: sizes, flags, modes and keys.
#[tactic(auto, using(crate::proofs::Played::Segments::get_by_key))]
pub fn get_by_key()
    ensures row { Plays (New 1) Segments.get_by_key }
{}

/// One class of mode bits counts, alone.
#[tactic(auto, using(crate::proofs::Played::Segments::one_class_counts))]
pub fn one_class_counts()
    ensures row { Plays (New 1) Segments.one_class_counts }
{}

/// A home restarts between two comings of one call: the kept reply goes again, and nothing is executed twice.
#[tactic(auto, using(crate::proofs::Played::Segments::home_restarts))]
pub fn home_restarts()
    ensures row { Plays (New 2) Segments.home_restarts }
{}

/// Identifiers that no home ever gave.
#[tactic(auto, using(crate::proofs::Played::Segments::unknown_identifiers))]
pub fn unknown_identifiers()
    ensures row { Plays (Preset 3 1) Segments.unknown_identifiers }
{}

/// A marked segment lives until its last detach, which is executed once, however often it comes.
#[tactic(auto, using(crate::proofs::Played::Removal::removal))]
pub fn removal()
    ensures row { Plays (New 2) Removal.removal }
{}

/// A marked segment may be attached, described, changed and removed again.
#[tactic(auto, using(crate::proofs::Played::Removal::marked_segment))]
pub fn marked_segment()
    ensures row { Plays (New 1) Removal.marked_segment }
{}

/// A Page that comes after the purge is dropped.
#[tactic(auto, using(crate::proofs::Played::Removal::purge_and_stale_page))]
pub fn purge_and_stale_page()
    ensures row { Plays (Preset 2 1) Removal.purge_and_stale_page }
{}

/// A purge is sent again until it is answered.
#[tactic(auto, using(crate::proofs::Played::Removal::purge_resent))]
pub fn purge_resent()
    ensures row { Plays (Preset 1 1) Removal.purge_resent }
{}

/// A purge takes the segment's entries, books and requests, and the rest stays.
#[tactic(auto, using(crate::proofs::Played::Removal::purge_of_one_segment))]
pub fn purge_of_one_segment()
    ensures row { Plays (New 2) Removal.purge_of_one_segment }
{}

/// The books of other segments keep their order.
#[tactic(auto, using(crate::proofs::Played::Removal::books_after_a_purge))]
pub fn books_after_a_purge()
    ensures row { Plays (New 2) Removal.books_after_a_purge }
{}

/// Envelopes that no site sent: what a fresh site refuses, drops and takes.
#[tactic(auto, using(crate::proofs::Played::Invented::invented_envelopes))]
pub fn invented_envelopes()
    ensures row { Invented.AllAnswered Invented.invented_envelopes }
{}

/// Envelopes that no site sent, at sites in the middle of a transaction or after one.
#[tactic(auto, using(crate::proofs::Played::Invented::invented_later))]
pub fn invented_later()
    ensures row { Invented.AllAnswered Invented.invented_later }
{}

/// A home has room for 64 segments that aren't destroyed; a marked one still counts, and no identifier comes again.
#[tactic(auto, using(crate::proofs::Played::Table::full_table))]
pub fn full_table()
    ensures row { Table.RepliedSo Table.full_table Table.full_table_replies }
{}

/// Of two requests of one site that wait, the older comes last and is dropped: it was served by the newer.
#[tactic(auto, using(crate::proofs::Played::Network::late_ask))]
pub fn late_ask()
    ensures row { Plays (Preset 3 1) Network.late_ask }
{}
