//! The command line of `shmdbg`: its tasks, its errors and its help.

mod check_site;
mod command_definitions;
mod help;
mod parse;
mod seal_words;
mod shortening_words;
mod simulation_options;
mod simulation_words;
mod task;
mod task_from_options;
mod word_checks;

pub use parse::parse_words;
pub use seal_words::SealWords;
pub use shortening_words::Shortening;
pub use simulation_words::Simulation;
pub use task::Task;
