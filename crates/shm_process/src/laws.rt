//! Laws of the definitions, for every run of a node.
ghost use Rattle.std.specs.Prelude.{◌≡◌, ◌≤◌, ◌+◌, ◌*◌, All, List, ℕ, None, Some, length, true};
ghost use Rattle.shm_process.specs.Cause.{Cause};
ghost use Rattle.shm_process.specs.Desk.{Desk, disagreement_in, later_sent, on_bytes, settled};
ghost use Rattle.shm_process.specs.DeskEvents.{DidEvents};
ghost use Rattle.shm_process.specs.Hello.{IsHello, hello_text, read_hello};
ghost use Rattle.shm_process.specs.Node as spec;
ghost use Rattle.shm_process.specs.Node.{most_ahead};
ghost use Rattle.shm_process.specs.Numbers.{NumbersWithin, numbers_fit};
ghost use Rattle.shm_process.specs.Recorded.{Event, IsEntry, after_event, after_events, entries_of, kept, replayed_all, said_at};
ghost use Rattle.shm_process.specs.Waiting.{after, most_steps, most_waiting, replayed, said_again};
ghost use Rattle.shm_process.specs.declared.hello_line.Hello.{Hello};
ghost use Rattle.shm_process.specs.declared.site_opening.Disagreement.{Disagreement};
ghost use Rattle.shm_wire.specs.Line as stream;
ghost use Rattle.shm_wire.specs.Line.{read_line};
ghost use Rattle.shm_wire.specs.Sent.{Sent};

/// The recorded steps, replayed one by one, lead to the same site, clock, count of steps and outstanding caller; only the asks that wait
/// are forgotten, and no line is counted.
pub fn recorded_steps_lead_to_the_same_site()
    ensures { (node : spec.Node) (events : List Event) → replayed_all (kept node) (entries_of node events) ≡ Some (kept (after_events node events)) }
{}

/// Each step that a node records has a line, whatever happened to it: no number in it is too large for one.
#[tactic(auto, using(crate::proofs::Proper::entries_have_lines))]
pub fn each_entry_has_a_line()
    ensures { (sites me pages : ℕ) (events : List Event) → All IsEntry (entries_of (spec.new_node sites me pages) events) }
{}

/// From bytes a desk records entries whose steps are exactly those of the events that its node had, in order. No row is left that may still
/// grow.
#[tactic(auto, using(crate::proofs::Recording::did_events))]
pub fn a_desk_records_each_step()
    ensures { (desk : Desk) (bytes : List ℕ) → desk.row ≡ None → DidEvents desk (on_bytes desk bytes) }
{}

/// At most 64 asks wait at a node, whatever happened to it.
#[tactic(auto, using(crate::proofs::Few::few_wait))]
pub fn few_asks_wait()
    ensures { (sites me pages : ℕ) (events : List Event) → length (after_events (spec.new_node sites me pages) events).waiting ≤ most_waiting }
{}

/// After a line the asks that wait make all steps that they can: `most_steps` are always enough. So an ask that still waits then waits for
/// what was asked already, or for a clock.
pub fn no_ask_is_left_that_can_be_made()
    ensures { (sites me pages : ℕ) (events : List Event) (desk : Desk) → desk.node ≡ after_events (spec.new_node sites me pages) events
        → said_again (settled most_steps desk).node ≡ None }
{}

/// A clock that is taken is within the bound: whatever a line says, it raises a node's clock by at most 2^32 + 1.
#[tactic(auto, using(crate::proofs::Clocks::line_reach))]
pub fn a_line_raises_the_clock_within_a_bound()
    ensures { (node : spec.Node) (line : stream.Line) → (after node line).clock ≤ node.clock + most_ahead + 1 }
{}

/// The bound on a node's clock after this many events. So bringing it to its end, 2^64 - 1, takes at least 2^32 - 1 events.
#[tactic(auto, using(crate::proofs::Clocks::clock_reach))]
pub fn a_clock_is_bounded_by_its_events()
    ensures { (sites me pages : ℕ) (events : List Event) → (after_events (spec.new_node sites me pages) events).clock ≤ (most_ahead + 1) * length events }
{}

/// No number that a node holds is above its clock, whatever lines come: not at its beginning, nor after any event, nor after a step that is
/// made again from its record.
#[tactic(auto, using(crate::proofs::Clocks::new_within, crate::proofs::Clocks::event_within))]
pub fn no_number_is_above_the_clock()
    ensures new { (sites me pages : ℕ) → NumbersWithin 0 (spec.new_node sites me pages).site }
    ensures event { (node : spec.Node) (event : Event) → NumbersWithin node.clock node.site
        → NumbersWithin (after_event node event).clock (after_event node event).site }
    ensures again { (node : spec.Node) (clock : ℕ) (cause : Cause) (next : spec.Node) → replayed node clock cause ≡ Some next
        → NumbersWithin node.clock node.site → NumbersWithin next.clock next.site }
{}

/// An envelope that such a node sends names no number above the clock of its step. So no node passes it over for its number.
#[tactic(auto, using(crate::proofs::Clocks::sent_fits))]
pub fn what_is_sent_names_no_number_above_its_clock()
    ensures { (node : spec.Node) (event : Event) (said : spec.Said) → said_at node event ≡ Some said → NumbersWithin node.clock node.site
        → All (λ e. numbers_fit said.clock e.message ≡ true) said.sent }
{}

/// Each hello has one spelling: what is read is spelled so, and what is spelled so is read.
pub fn hellos_have_one_spelling()
    ensures read { (line : List ℕ) (hello : Hello) → read_hello line ≡ Some hello → IsHello hello × (line ≡ hello_text hello) }
    ensures spelled { (hello : Hello) → IsHello hello → read_hello (hello_text hello) ≡ Some hello }
{}

/// A hello is no line that a site takes, though it stands in the stream as an envelope does.
pub fn a_hello_is_no_line_of_the_stream()
    ensures { (line : List ℕ) (hello : Hello) → read_hello line ≡ Some hello → read_line line ≡ None }
{}

/// Whatever comes after the first site that was begun otherwise, that one stays the one that is noted.
#[tactic(auto, using(crate::proofs::Noting::stays_noted))]
pub fn the_first_other_opening_stays()
    ensures { (desk : Desk) (bytes : List ℕ) (first : Disagreement) → disagreement_in desk ≡ Some first → disagreement_in (on_bytes desk bytes) ≡ Some first }
{}

/// Whatever comes after the first step that the site's journal lacks, that one stays the one that is noted.
#[tactic(auto, using(crate::proofs::Noting::stays_later))]
pub fn the_first_later_step_stays()
    ensures { (desk : Desk) (bytes : List ℕ) (clock : ℕ) → desk.later ≡ Some clock → (on_bytes desk bytes).later ≡ Some clock }
{}

/// What a node told never shows a later step of its own: a node's clock never falls, and each step is told under the clock that the node then
/// has. So no site that has all its steps ends because of what it told itself.
pub fn no_step_that_was_told_is_a_later_one()
    ensures { (node : spec.Node) (event : Event) (said : spec.Said) (events : List Event) (sent : Sent) → said_at node event ≡ Some said
        → sent.source.at ≡ said.clock → later_sent (after_events (after_event node event) events) sent ≡ None }
{}
