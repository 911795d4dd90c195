//! A debugger's session, with the events that stand, the world that they lead to, and going back; and whole scripts of lines over it, with
//! what becomes of each line.
#![tactic(auto)]

mod back_error;
mod checkpoint;
mod checkpoints;
pub mod laws;
mod non_event_answer;
mod output_buffer;
mod play_line;
mod printed_text;
mod replay_script;
mod script_player;
mod script_summary_and_error;
mod session;
mod session_apply;
mod session_back;
mod session_page_text;
mod undos;

pub use back_error::BackFault;
pub use printed_text::{
    print_answer, print_page, tell_answer_line, tell_copies, tell_manager, tell_page_line,
    write_answer,
};
pub use replay_script::replay;
pub use script_player::Player;
pub use script_summary_and_error::{DebugFault, Summary};
pub use session::Session;
pub use shm_lines::{BadLine, Line, parse_line};
