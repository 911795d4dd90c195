use shm_model::refusal::{self, Numbered};
use shm_sites::{ClientFault, StartFault};
use thiserror::Error;

/// Why an access of a workload was not made.
#[derive(Clone, Copy, Debug, PartialEq, Eq, Error)]
#[error("access {place}: {fault}")]
pub struct CallFault {
    /// The number of the access among all of them, from 0.
    pub place: usize,
    /// Why its client gave no receipt.
    pub fault: ClientFault,
}

/// Why a workload did not run to its end.
#[derive(Clone, Copy, Debug, PartialEq, Eq, Error)]
pub enum RunFault {
    /// The sites or their callers could not begin.
    #[error("{0}")]
    Start(StartFault),
    /// Of the accesses that were not made, the first in the order of the lines.
    #[error("{0}")]
    Call(CallFault),
    /// Memory was refused when the logs were to be taken back.
    #[error("out of memory")]
    OutOfMemory,
    /// The logs that were given back aren't one of each of these sites, in order.
    #[error("other logs")]
    Logs,
}

impl Numbered for CallFault {
    ghost use Rattle.shm_sites.specs.Cluster.Faults.{client_fault_number};

    ghost number_of = { λ call. client_fault_number call.fault };

    fn number(&self) -> u8 {
        self.fault.number()
    }
}

impl Numbered for RunFault {
    ghost use Rattle.shm_report.specs.RunFaults.{run_fault_number};

    ghost number_of = { run_fault_number };

    fn number(&self) -> u8 {
        match self {
            RunFault::Start(fault) => fault.number(),
            RunFault::Call(call) => call.number(),
            RunFault::OutOfMemory => refusal::OUT_OF_MEMORY,
            RunFault::Logs => refusal::LOGS,
        }
    }
}
