//! The world: all sites and the network between them, stepped by events; and the headline as the contract of its run.
#![tactic(auto)]

mod deliver_repeat_or_lose;
mod first_world;
mod inspect_world;
pub mod laws;
mod members;
mod network;
mod numbered_place;
mod numbered_values;
mod run_events;
mod site_start;
mod step_site;
mod undo_event;
mod undo_record;
mod world;

pub use network::Network;
pub use shm_model::{Access, Answer, Event, Shown};
pub use shm_site::BookView;
pub use undo_record::Undo;
pub use world::World;
