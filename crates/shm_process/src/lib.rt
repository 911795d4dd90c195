//! A site as a process, but for its streams: a line comes, and the site makes a step; what it says are lines again.
//!
//! All sites and callers share one stream. A line for another site, or that is no line of the stream (`shm_wire`), is passed over. A load
//! or a store waits for its right, and is made again when it may be there. A block is loaded or stored byte by byte.
//!
//! The site's machine may map pages. While a page is mapped, a line that would take its right away, or pass its memory by, is kept back, and the
//! machine is asked to give the page up.
#![tactic(auto)]

mod access_row;
mod answer_lines;
mod block_load;
mod block_store;
mod build_step_output;
mod byte_place;
mod check_message_numbers;
mod desk;
mod desk_gives_up;
mod desk_greeting;
mod desk_later;
mod desk_meets_line;
mod desk_records;
mod desk_settles;
mod envelope_lines;
mod health;
mod hello_line;
mod interpret_line;
mod interpreted_line;
mod kept_line;
pub mod laws;
mod line_meeting;
mod loads_left;
mod mapping_list;
mod node;
mod node_goes_further;
mod node_mapped_pages;
mod node_maps_page;
mod node_meets_line;
mod node_replay;
mod node_retries;
mod node_takes_line;
mod process_counts;
mod recorded_steps;
mod restored_node;
mod retried_step;
mod site_opening;
mod step_cause;
mod step_output;
mod stores_left;
mod unmap_left;
mod unopened_line_counts;
mod waiting_ask;

pub use desk::Desk;
pub use health::Health;
pub use hello_line::{Hello, parse_hello};
pub use interpret_line::{input_asked, input_unmapped};
pub use node::Node;
pub use process_counts::{Counts, Start};
pub use recorded_steps::Steps;
pub use retried_step::Again;
pub use site_opening::{Disagreement, Opening};
pub use step_cause::Cause;
pub use step_output::Said;
pub use unopened_line_counts::Unopened;
