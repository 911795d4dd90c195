//! Pages that are mapped into programs: the theorems, each the contract of a function without parameters and with an empty body, and what
//! a machine does with an envelope while a page is mapped.
#![tactic(auto)]

mod envelope_verdict;
mod laws;

pub use envelope_verdict::{Brought, Verdict, verdict_on};
pub use laws::{
    a_dead_machine_loses_an_end, processors_share_one_memory, programs_run_as_one_world,
    sites_run_beside_what_is_mapped, verdicts_keep_what_is_mapped, what_is_held_is_late,
    what_is_mapped_is_kept,
};
