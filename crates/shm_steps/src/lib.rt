//! A run as a page for a browser: its picture, and for each event the world after it. The text is the definitions' page of the run: the fixed
//! script and style around it only choose what is seen. A script's page is that of the run that stands at its end.
#![tactic(auto)]

mod draw_script_steps;
mod envelopes_in_flight;
mod html_head_and_tail;
mod html_page;
mod manager_book_html;
mod pages_table;
mod pending_requests;
mod step_sections;
mod world_section;

pub use draw_script_steps::draw_steps;
pub use html_page::page_of;
