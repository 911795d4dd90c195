//! A run as a picture: one self-contained SVG. For each page it has a row for each event, a lifeline for each site and an arrow for each
//! envelope of this page; captions stand beside rows. The text is the definitions' picture of the run. A script's picture is that of the run that stands at its end.
#![tactic(auto)]

mod arrow_svg;
mod caption;
mod caption_svg;
mod draw_script;
mod envelope_origins;
mod envelope_routes;
mod envelopes_in_flight;
mod event_row_svg;
pub mod laws;
mod lifelines;
mod mark_kinds;
mod mark_of_event;
mod message_label;
mod page_of_event;
mod pages_to_draw;
mod right_margin_width;
mod svg_geometry;
mod svg_of_page;
mod svg_picture;
mod svg_style;

pub use caption::{Caption, CaptionFault, parse_captions};
pub use draw_script::{draw, read_script};
pub use mark_kinds::{End, Mark, Symbol, Way};
pub use message_label::Word;
pub use pages_to_draw::pages_drawn;
pub use svg_picture::picture_of;
