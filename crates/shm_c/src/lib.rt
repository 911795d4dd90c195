//! Worlds and sites for C: handles to them, their events and what they show, as numbers; and the messages of sites, as lines.
#![tactic(auto)]

mod envelope_line;
mod events;
mod held_site;
mod inspect;
mod loose;
mod make_and_free;
mod numbers;
mod segment_calls;
mod site_events;
mod site_handle;
mod site_inspect;
pub mod site_laws;
mod site_make_and_free;
mod site_messages;
mod site_outcome;
mod spell_answer;
mod spell_envelope;
mod world_handle;
