//! What could happen: random schedules of one workload, each in a world of its own, without threads.
#![tactic(auto)]

mod add_to_spreads;
mod gave;
mod line_state;
mod measure;
mod measures_of_workload;
mod odds;
mod outcome;
mod page_message;
mod partial_run;
mod play_one_run;
mod reaction;
mod scheduler;
mod simulate_runs;
mod spread;
mod tally_text;
mod workload_lines;

pub use gave::Gave;
pub use line_state::LineState;
pub use measure::Measure;
pub use odds::Odds;
pub use outcome::Outcome;
pub use page_message::{MessageKind, PageMessage};
pub use simulate_runs::{Tally, simulate};
pub use spread::Spread;
