ghost use Rattle.shm_site.specs.Step.{step_fault_number};

use crate::step_error::StepFault;
use shm_model::refusal::{FOREIGN, Numbered, OUT_OF_MEMORY};

impl Numbered for StepFault {
    ghost number_of = { step_fault_number };

    fn number(&self) -> u8 {
        match self {
            StepFault::Foreign => FOREIGN,
            StepFault::OutOfMemory => OUT_OF_MEMORY,
        }
    }
}
